// Why an end refuses.
ghost use Rattle.std.specs.Prelude.{◌≡◌, Some};
ghost use Rattle.link.specs.declared.fault.LinkFault.TheVariants.{UnknownKind as NoKind, Session as InSession};
ghost use Rattle.link.specs.Refusals.{told};
ghost use Rattle.link.specs.Texts.{fault_text};

use crate::frame::HEADER;
use crate::kind::UnknownKind;
use refusals::{Layer, Refusal};
use session::SessionFault;
use std::error::Error;
use std::fmt;

#[derive(Clone, Copy, Debug, PartialEq, Eq)]
pub enum LinkFault {
    // the end has come to the largest number
    Spent,
    // the frame has no byte
    Empty,
    UnknownKind,
    // of the frame in taking, of the text in writing
    WrongLength { length: usize },
    ShortBuffer { room: usize },
    // the frame's number is not the end's
    WrongNumber,
    Session(SessionFault),
}

impl From<SessionFault> for LinkFault {
    ghost from_gives = { λ fault r. r ≡ InSession fault };

    fn from(fault: SessionFault) -> LinkFault {
        LinkFault::Session(fault)
    }
}

impl From<UnknownKind> for LinkFault {
    ghost from_gives = { λ _ fault. fault ≡ NoKind };

    fn from(_byte: UnknownKind) -> LinkFault {
        LinkFault::UnknownKind
    }
}

// The refusal's number, layer and place.
impl From<LinkFault> for Refusal {
    ghost from_gives = { λ fault r. r ≡ told fault };

    fn from(fault: LinkFault) -> Refusal {
        let (number, place) = match fault {
            LinkFault::Spent => (1, 0),
            LinkFault::Empty => (2, 0),
            LinkFault::UnknownKind => (3, 0),
            LinkFault::WrongLength { length } => (4, length),
            LinkFault::ShortBuffer { room } => (5, room),
            LinkFault::WrongNumber => (6, 1),
            LinkFault::Session(inner) => return within_frame(inner),
        };
        Refusal {
            number,
            layer: Layer::Link,
            place,
        }
    }
}

// A session counts from the ciphertext's first byte, and a link from the frame's.
fn within_frame(fault: SessionFault) -> Refusal
    ensures { result ≡ told (InSession fault) }
{
    let inner = Refusal::from(fault);
    Refusal {
        place: inner.place.saturating_add(HEADER),
        ..inner
    }
}

impl fmt::Display for LinkFault {
    ghost output = { λ fault. Some (fault_text fault) };

    fn fmt<W: fmt::Write>(&self, f: &mut fmt::Formatter<W>) -> fmt::Result {
        f.write_str(match self {
            LinkFault::Spent => "the end has come to 1000000",
            LinkFault::Empty => "the frame has no byte",
            LinkFault::UnknownKind => "unknown kind",
            LinkFault::WrongLength { .. } => "not the length of its kind",
            LinkFault::ShortBuffer { .. } => "the buffer is too short",
            LinkFault::WrongNumber => "the frame's number is not the end's",
            LinkFault::Session(inner) => return inner.fmt(f),
        })
    }
}

impl Error for LinkFault {}
