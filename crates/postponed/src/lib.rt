// The postponed engine: shuffles are counted, and carried out only where the state is written as bytes.
#![tactic(auto)]

mod bytes;
mod count;
mod engine;
mod table;
mod transfer;

pub use engine::Postponed;
pub use table::powers;
