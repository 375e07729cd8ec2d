// The interpreter of a bench line: it reads a command, carries it out on a duplex object and gives the bytes to print.
#![tactic(auto)]

mod carry;
mod example;
mod run;
mod script;

pub use buffer::Buffer;
pub use carry::interpret;
pub use commands::{Command, Fault, line_figures, lines_read_back, parse};
pub use example::worked_example;
pub use run::Console;
pub use script::run_script;
