// The 257 bits in nine words of 32 bits, and the packed engine.
#![tactic(auto)]

mod bytes;
mod doubled;
mod packed;
mod residue;
mod round;
mod transfer;
mod vector;

pub use doubled::Doubled;
pub use packed::Packed;
pub use residue::Residue;
pub use transfer::{Places, PositionIndex};
pub use vector::Words;
