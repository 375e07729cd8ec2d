// Reading a line.
ghost use Rattle.std.specs.Prelude.{◌≡◌};
ghost use Rattle.commands.specs.Lines.{parsed, with_string, with_count, count_digits, by_letter, alone, hex_fault};

use crate::terms::{Command, Fault};
use digits::{Letters, bad_place};

// The longest line that is not refused for its length.
const LONGEST: usize = 130;

// The column that spoils the digits, which begin at column 3.
fn bad_column(digits: &[u8]) -> Option<usize>
    ensures { result ≡ hex_fault digits.now }
{
    if digits.is_empty() {
        return Some(3);
    }
    let place = bad_place(Letters::Lower, digits)?;
    Some(3 + place)
}

// A command that stands alone.
fn bare(command: Command, rest: &[u8]) -> Result<Command, Fault>
    ensures { result ≡ alone command rest.now }
{
    match rest {
        [] => Ok(command),
        _ => Err(Fault::Byte),
    }
}

// A command that a string may follow.
fn with_hex(command: Command, rest: &[u8]) -> Result<Command, Fault>
    ensures { result ≡ with_string command rest.now }
{
    let [blank, digits @ ..] = rest else {
        return Ok(command);
    };
    if *blank != b' ' {
        return Err(Fault::Byte);
    }
    // `map_or` was tried, and the proof did not close.
    match bad_column(digits) {
        Some(column) => Err(Fault::Hex { column }),
        None => Ok(command),
    }
}

// A count: one digit or two, with a value of at most 64.
fn count(digits: &[u8]) -> Result<u8, Fault>
    ensures { result ≡ count_digits digits.now }
{
    let n = match digits {
        [a @ b'0'..=b'9'] => *a - b'0',
        [a @ b'0'..=b'9', b @ b'0'..=b'9'] => 10 * (*a - b'0') + (*b - b'0'),
        _ => return Err(Fault::Count),
    };
    if n <= 64 { Ok(n) } else { Err(Fault::Count) }
}

// The count that follows a letter.
fn with_number(rest: &[u8]) -> Result<u8, Fault>
    ensures { result ≡ with_count rest.now }
{
    let [blank, digits @ ..] = rest else {
        return Err(Fault::Byte);
    };
    if *blank != b' ' {
        return Err(Fault::Byte);
    }
    count(digits)
}

// The command that a letter and the rest of its line make.
fn by_first(letter: u8, rest: &[u8]) -> Result<Command, Fault>
    ensures { result ≡ by_letter letter rest.now }
{
    match char::from(letter) {
        'Z' => bare(Command::Zero, rest),
        'A' => with_hex(Command::Absorb, rest),
        'U' => with_hex(Command::AbsorbUnkeyed, rest),
        'C' => with_hex(Command::Encrypt, rest),
        'P' => with_hex(Command::Decrypt, rest),
        'B' => Ok(Command::Blank(with_number(rest)?)),
        'S' => Ok(Command::Squeeze(with_number(rest)?)),
        _ => Err(Fault::Letter),
    }
}

// The command of a line, or the first reason to refuse it.
pub fn parse(line: &[u8]) -> Result<Command, Fault>
    ensures { result ≡ parsed line.now }
{
    if line.len() > LONGEST {
        return Err(Fault::Length);
    }
    match line {
        [letter, rest @ ..] => by_first(*letter, rest),
        [] => Err(Fault::Letter),
    }
}
