// The wording of scripts: runs of bytes, bytes in hex, and the names of the kinds.
#![tactic(auto)]

mod runs;
mod terms;

pub use runs::{Stop, run_length};
pub use terms::{bad_place, decode, kind_byte, kind_name, names_read_back};
