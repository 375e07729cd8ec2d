// What a line can ask for, and why it can be refused.
ghost use Rattle.std.specs.Prelude.{◌≡◌};
ghost use Rattle.commands.specs.Refusals.{told};

use refusals::{Layer, Refusal};

// A command. The string of the four string commands stands in the line itself.
#[derive(Clone, Copy, Debug, PartialEq, Eq)]
pub enum Command {
    Zero,
    Absorb,
    AbsorbUnkeyed,
    Encrypt,
    Decrypt,
    Blank(u8),
    Squeeze(u8),
}

#[derive(Clone, Copy, Debug, PartialEq, Eq)]
pub enum Fault {
    // no letter, or an unknown one
    Letter,
    // a wrong byte after the letter, or none where one is owed
    Byte,
    // a bad hex digit, an odd count of digits, or a blank with nothing after it
    Hex { column: usize },
    // a bad count, or none after a blank
    Count,
    // too many bytes
    Length,
}

// The refusal's number, layer and column.
impl From<Fault> for Refusal {
    ghost from_gives = { λ fault r. r ≡ told fault };

    fn from(fault: Fault) -> Refusal {
        let (number, place) = match fault {
            Fault::Letter => (9, 1),
            Fault::Byte => (9, 2),
            Fault::Hex { column } => (10, column),
            Fault::Count => (11, 3),
            Fault::Length => (12, 131),
        };
        Refusal {
            number,
            layer: Layer::Bench,
            place,
        }
    }
}
