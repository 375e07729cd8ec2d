// The names of the engines.
ghost use Rattle.std.specs.Prelude.{◌≡◌, Some, codes};
ghost use Rattle.std.specs.Fmt.{padded};
ghost use Rattle.cli.specs.Engines.{name_of, default_engine, engine_named, NamesReadBack};

use std::error::Error;
use std::fmt;
use std::str::FromStr;

// An engine as the arguments of a program name it.
#[derive(Clone, Copy, Debug, PartialEq, Eq)]
pub enum EngineName {
    Plain,
    Packed,
    Postponed,
}

impl EngineName {
    pub fn as_str(self) -> &'static str
        ensures { result.now ≡ name_of self }
    {
        match self {
            EngineName::Plain => "plain",
            EngineName::Packed => "packed",
            EngineName::Postponed => "postponed",
        }
    }
}

// Written out, since a derived one promises nothing.
impl Default for EngineName {
    ghost is_default = { λ engine. engine ≡ default_engine };

    fn default() -> EngineName {
        Self::Postponed
    }
}

impl fmt::Display for EngineName {
    ghost output = { λ engine. Some (name_of engine) };

    ghost styled_output = { λ engine spec. Some (padded spec (name_of engine)) };

    fn fmt<W: fmt::Write>(&self, f: &mut fmt::Formatter<W>) -> fmt::Result {
        f.pad(self.as_str())
    }
}

impl FromStr for EngineName {
    type Err = NoEngine;

    ghost from_str_gives = { λ text r. r ≡ engine_named text };

    fn from_str(text: &str) -> Result<EngineName, NoEngine> {
        match text {
            "plain" => Ok(EngineName::Plain),
            "packed" => Ok(EngineName::Packed),
            "postponed" => Ok(EngineName::Postponed),
            _ => Err(NoEngine),
        }
    }
}

// A text names no engine.
#[derive(Clone, Copy, Debug, PartialEq, Eq)]
pub struct NoEngine;

impl fmt::Display for NoEngine {
    ghost output = { λ _. Some (codes "no such engine") };

    fn fmt<W: fmt::Write>(&self, f: &mut fmt::Formatter<W>) -> fmt::Result {
        f.write_str("no such engine")
    }
}

impl Error for NoEngine {}

// The name of every engine is read back.
pub fn names_read_back()
    ensures { NamesReadBack }
{}
