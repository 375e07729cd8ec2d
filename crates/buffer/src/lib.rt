// A row of bytes, as long as the longest line of the bench and one more.
#![tactic(auto)]

mod buffer;

pub use buffer::Buffer;
