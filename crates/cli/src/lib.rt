// What the programs for the workbench share: the names of the engines, and how a program ends.
#![tactic(auto)]

mod ending;
mod engines;

pub use ending::report;
pub use engines::{EngineName, NoEngine, names_read_back};
