// Why a line is not carried out.
use std::alloc::{AllocError, AllocFailed};
use std::fmt;

// What is wrong at a column, or what is wanted there.
#[derive(Clone, Copy)]
pub enum Reason {
    NoDigit,
    NoHexDigit,
    OddDigits,
    KeyWanted,
    NonceWanted,
    KindWanted,
    BitWanted,
    UnknownKind,
    UnknownCommand,
    ExtraWord,
    OpenAlready,
    NotOpen,
    NotWritten,
    NoSuchBit,
    NothingHanded,
    TwoFramesWanted,
    AllLeft,
}

impl fmt::Display for Reason {
    fn fmt<W: fmt::Write>(&self, f: &mut fmt::Formatter<W>) -> fmt::Result {
        f.write_str(match self {
            Reason::NoDigit => "not a decimal digit",
            Reason::NoHexDigit => "not a hex digit",
            Reason::OddDigits => "an odd count of hex digits",
            Reason::KeyWanted => "a key of 32 hex digits is wanted",
            Reason::NonceWanted => "a nonce of 32 hex digits is wanted",
            Reason::KindWanted => "a kind is wanted",
            Reason::BitWanted => "the number of a bit is wanted",
            Reason::UnknownKind => "neither the name of a kind nor two hex digits",
            Reason::UnknownCommand => "no such command",
            Reason::ExtraWord => "a word too many",
            Reason::OpenAlready => "the ends are open already",
            Reason::NotOpen => "the ends are not open yet",
            Reason::NotWritten => "no frame with this number is written yet",
            Reason::NoSuchBit => "the frame has no such bit",
            Reason::NothingHanded => "nothing was handed over yet",
            Reason::TwoFramesWanted => "two written frames are wanted",
            Reason::AllLeft => "every written frame has left",
        })
    }
}

#[derive(Clone, Copy)]
pub struct Fault {
    pub column: usize,
    pub reason: Reason,
}

impl Fault {
    pub(crate) fn new(column: usize, reason: Reason) -> Fault {
        Fault { column, reason }
    }
}

// A fault of the line, or no memory.
#[derive(Clone, Copy)]
pub enum Trouble {
    Line(Fault),
    Memory(AllocError),
}

impl From<Fault> for Trouble {
    fn from(fault: Fault) -> Trouble {
        Trouble::Line(fault)
    }
}

impl From<AllocError> for Trouble {
    fn from(error: AllocError) -> Trouble {
        Trouble::Memory(error)
    }
}

impl<T: Drop> From<AllocFailed<T>> for Trouble {
    fn from(failed: AllocFailed<T>) -> Trouble {
        Trouble::Memory(failed.into())
    }
}
