// Why a session refuses.
ghost use Rattle.std.specs.Prelude.{◌≡◌, Some};
ghost use Rattle.session.specs.Refusals.{told};
ghost use Rattle.session.specs.Texts.{fault_text};

use refusals::{Layer, Refusal};
use std::error::Error;
use std::fmt;

#[derive(Clone, Copy, Debug, PartialEq, Eq)]
pub enum SessionFault {
    // the output buffer is too short
    Short { room: usize },
    // the tag differs
    Tag { length: usize },
}

// The refusal's number, layer and place.
impl From<SessionFault> for Refusal {
    ghost from_gives = { λ fault r. r ≡ told fault };

    fn from(fault: SessionFault) -> Refusal {
        let (number, place) = match fault {
            SessionFault::Short { room } => (5, room),
            SessionFault::Tag { length } => (7, length),
        };
        Refusal {
            number,
            layer: Layer::Session,
            place,
        }
    }
}

impl fmt::Display for SessionFault {
    ghost output = { λ fault. Some (fault_text fault) };

    fn fmt<W: fmt::Write>(&self, f: &mut fmt::Formatter<W>) -> fmt::Result {
        f.write_str(match self {
            SessionFault::Short { .. } => "the buffer is too short",
            SessionFault::Tag { .. } => "the tag differs",
        })
    }
}

impl Error for SessionFault {}
