// The kinds of frames.
ghost use Rattle.std.specs.Prelude.{◌≡◌, Some};
ghost use Rattle.link.specs.Kinds.{kind_byte, text_length, kind_found};
ghost use Rattle.link.specs.Texts.{no_kind_text};

use std::error::Error;
use std::fmt;

#[derive(Clone, Copy, Debug, PartialEq, Eq)]
pub enum Kind {
    PollValue,
    Alarm,
    Output,
    Clock,
    ZoneName,
    Heartbeat,
}

// A byte that stands for no kind.
#[derive(Clone, Copy, Debug, PartialEq, Eq)]
pub struct UnknownKind(pub u8);

impl Kind {
    pub const ALL: [Kind; 6] = [
        Kind::PollValue,
        Kind::Alarm,
        Kind::Output,
        Kind::Clock,
        Kind::ZoneName,
        Kind::Heartbeat,
    ];

    // The length of the kind's text.
    pub fn text_len(self) -> usize
        ensures { result ≡ text_length self }
    {
        match self {
            Kind::PollValue => 4,
            Kind::Alarm => 6,
            Kind::Output => 3,
            Kind::Clock => 7,
            Kind::ZoneName => 32,
            Kind::Heartbeat => 0,
        }
    }
}

// The kind that a byte stands for.
impl TryFrom<u8> for Kind {
    type Error = UnknownKind;

    ghost try_from_gives = { λ byte r. r ≡ kind_found byte };

    fn try_from(byte: u8) -> Result<Kind, UnknownKind> {
        match byte {
            1 => Ok(Kind::PollValue),
            2 => Ok(Kind::Alarm),
            3 => Ok(Kind::Output),
            4 => Ok(Kind::Clock),
            5 => Ok(Kind::ZoneName),
            6 => Ok(Kind::Heartbeat),
            _ => Err(UnknownKind(byte)),
        }
    }
}

impl From<Kind> for u8 {
    ghost from_gives = { λ kind byte. byte ≡ kind_byte kind };

    fn from(kind: Kind) -> u8 {
        match kind {
            Kind::PollValue => 1,
            Kind::Alarm => 2,
            Kind::Output => 3,
            Kind::Clock => 4,
            Kind::ZoneName => 5,
            Kind::Heartbeat => 6,
        }
    }
}

impl fmt::Display for UnknownKind {
    ghost output = { λ unknown. Some (no_kind_text unknown.0) };

    fn fmt<W: fmt::Write>(&self, f: &mut fmt::Formatter<W>) -> fmt::Result {
        write!(f, "no kind has the byte {}", self.0)
    }
}

impl Error for UnknownKind {}
