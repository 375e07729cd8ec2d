// Bytes in hex, and the names of the kinds.
ghost use Rattle.std.specs.Prelude.{◌≡◌, ◌∷◌, [], IfOk};
ghost use Rattle.std.specs.Str.{bytes_eq};
ghost use Rattle.std.specs.List.{find};
ghost use Rattle.digits.specs.Digits.{bad_hex};
ghost use Rattle.digits.specs.Pairs.{unhex_by};
ghost use Rattle.wording.specs.Terms.{name_of, two_digits, byte_named, kinds, NamesReadBack};

use digits::{Letters, bytes_by, hex_value};
use link::Kind;
use std::alloc::{AllocError, Global};

// The place, from 0, that spoils the digits: the first byte that is none, or the end where their count is odd.
pub fn bad_place(digits: &[u8]) -> Option<usize>
    ensures { result ≡ bad_hex Letters.Lower digits.now }
{
    digits::bad_place(Letters::Lower, digits)
}

// The bytes that pairs of hex digits write; a byte that is no digit counts as 0.
pub fn decode(heap: Global, digits: &[u8]) -> Result<Vec<u8>, AllocError>
    ensures { IfOk result (λ v. v.items ≡ unhex_by Letters.Lower digits.now) }
{
    bytes_by(Letters::Lower, heap, digits)
}

// The names belong to scripts, so they are no `Display` and `FromStr` of `Kind`: a type of their own around it would be longer.
pub fn kind_name(kind: Kind) -> &'static str
    ensures { result.now ≡ name_of kind }
{
    match kind {
        Kind::PollValue => "poll-value",
        Kind::Alarm => "alarm",
        Kind::Output => "output",
        Kind::Clock => "clock",
        Kind::ZoneName => "zone-name",
        Kind::Heartbeat => "heartbeat",
    }
}

fn is_named(word: &[u8], kind: Kind) -> bool
    ensures { result ≡ bytes_eq word.now (name_of kind) }
{
    word == kind_name(kind).as_bytes()
}

// The kind that a word names.
fn kind_named(word: &[u8]) -> Option<Kind>
    ensures { result ≡ find (λ kind. bytes_eq word.now (name_of kind)) kinds }
{
    Kind::ALL.iter().copied().find(|kind| is_named(word, *kind))
}

// A byte in two hex digits. hex_value as it is: the decoder takes a byte that is no digit as 0.
fn byte_of(word: &[u8]) -> Option<u8>
    ensures { result ≡ two_digits word.now }
{
    let [high, low] = word else {
        return None;
    };
    let high = hex_value(Letters::Lower, *high)?;
    let low = hex_value(Letters::Lower, *low)?;
    Some(16 * high + low)
}

// The kind byte that a word stands for: a kind's name, or two hex digits.
pub fn kind_byte(word: &[u8]) -> Option<u8>
    ensures { result ≡ byte_named word.now }
{
    match kind_named(word) {
        Some(kind) => Some(u8::from(kind)),
        None => byte_of(word),
    }
}

// The name of every kind stands for its byte.
pub fn names_read_back()
    ensures { NamesReadBack }
{}
