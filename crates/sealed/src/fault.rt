// Why words and bytes are refused.
ghost use Rattle.std.specs.Prelude.{◌≡◌, Some};
ghost use Rattle.sealed.specs.Texts.{hex_text, sealed_text};
ghost use Rattle.sealed.specs.declared.fault.SealedFault.TheVariants.{Session as Inner, Memory};
ghost use Rattle.sealed.specs.declared.fault.WordFault.TheVariants.{Hex, Memory as NoMemory};

use refusals::Refusal;
use session::SessionFault;
use std::alloc::AllocError;
use std::fmt;

// What spoils a word of hex digits.
#[derive(Clone, Copy, Debug, PartialEq, Eq)]
pub enum HexFault {
    // a byte that is no digit
    Digit { column: usize },
    // an odd count of digits; the column past the end
    Odd { column: usize },
    // other than 32 digits
    Count { digits: usize },
}

impl fmt::Display for HexFault {
    ghost output = { λ fault. Some (hex_text fault) };

    fn fmt<W: fmt::Write>(&self, f: &mut fmt::Formatter<W>) -> fmt::Result {
        match self {
            HexFault::Digit { column } => write!(f, "column {column} is no hex digit"),
            HexFault::Odd { column } => write!(f, "a digit is missing at column {column}"),
            HexFault::Count { digits } => write!(f, "{digits} hex digits where 32 are wanted"),
        }
    }
}

#[derive(Clone, Copy, Debug, PartialEq, Eq)]
pub enum WordFault {
    Hex(HexFault),
    Memory,
}

#[derive(Clone, Copy, Debug, PartialEq, Eq)]
pub enum SealedFault {
    // bytes that cannot hold a tag
    Tagless { length: usize },
    Session(SessionFault),
    Memory,
}

impl fmt::Display for SealedFault {
    ghost output = { λ fault. Some (sealed_text fault) };

    fn fmt<W: fmt::Write>(&self, f: &mut fmt::Formatter<W>) -> fmt::Result {
        match self {
            SealedFault::Tagless { length } => {
                write!(f, "{length} bytes, fewer than the 16 of a tag")
            }
            SealedFault::Session(fault) => {
                let refusal = Refusal::from(*fault);
                let number = refusal.number;
                let place = refusal.place;
                write!(f, "session refusal {number} at {place}: {fault}")
            }
            SealedFault::Memory => f.write_str("out of memory"),
        }
    }
}

impl From<HexFault> for WordFault {
    ghost from_gives = { λ fault r. r ≡ Hex fault };

    fn from(fault: HexFault) -> WordFault {
        WordFault::Hex(fault)
    }
}

impl From<AllocError> for WordFault {
    ghost from_gives = { λ _ r. r ≡ NoMemory };

    fn from(_: AllocError) -> WordFault {
        WordFault::Memory
    }
}

impl From<SessionFault> for SealedFault {
    ghost from_gives = { λ inner r. r ≡ Inner inner };

    fn from(inner: SessionFault) -> SealedFault {
        SealedFault::Session(inner)
    }
}

impl From<AllocError> for SealedFault {
    ghost from_gives = { λ _ r. r ≡ Memory };

    fn from(_: AllocError) -> SealedFault {
        SealedFault::Memory
    }
}
