// What a frame is made of: a kind byte, a number in four bytes, a ciphertext and a tag.
ghost use Rattle.std.specs.Prelude.{◌≡◌, ◌+◌, ◌<◌, ◌≤◌, not, nat_lt};
ghost use Rattle.link.specs.Kinds.{kind_byte};
ghost use Rattle.link.specs.Frames.{number_limit, header_of};

use crate::kind::Kind;

// The bytes before the ciphertext, which are the associated data.
pub const HEADER: usize = 5;

pub const TAG: usize = 16;

// How much longer a frame is than its text.
pub const OVERHEAD: usize = HEADER + TAG;

// The largest number: an end that has come to it neither writes nor takes.
pub const NUMBER_LIMIT: u32 = 1_000_000;

// How many frames an end has written or taken.
#[derive(Clone, Copy)]
pub struct Number {
    pub value: u32,
    ghost within: { value ≤ number_limit },
}

impl Number {
    pub(crate) fn is_largest(self) -> bool
        ensures { result ≡ not (nat_lt self.value number_limit) }
    {
        self.value >= NUMBER_LIMIT
    }

    pub(crate) fn next(self) -> Number
        requires { self.value < number_limit }
        ensures { result.value ≡ self.value + 1 }
    {
        Number {
            value: self.value + 1,
        }
    }
}

// The bytes before the ciphertext.
pub fn header(kind: Kind, number: Number) -> [u8; HEADER]
    ensures { result ≡ header_of (kind_byte kind) number.value }
{
    let [n0, n1, n2, n3] = number.value.to_le_bytes();
    [u8::from(kind), n0, n1, n2, n3]
}
