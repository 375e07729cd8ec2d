// The commands of the bench: which command a line is, or why it is none.
#![tactic(auto)]

ghost use Rattle.commands.specs.Writing.{LinesReadBack};
ghost use Rattle.commands.specs.Figures.{LineFigures};

mod reading;
mod terms;

pub use reading::parse;
pub use terms::{Command, Fault};

// Every command, written as a line, is read back.
pub fn lines_read_back()
    ensures { LinesReadBack }
{}

// An example of each refusal of a line, and the longest line that is taken.
pub fn line_figures()
    ensures { LineFigures }
{}
