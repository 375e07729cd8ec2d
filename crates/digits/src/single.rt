// Single digits.
ghost use Rattle.std.specs.Prelude.{◌≡◌, ◌%◌, ◌<◌, IfSome, is_none, position};
ghost use Rattle.digits.specs.Digits.{low_value, capital_value, value_of, value_or_zero, digit_value, hex_digit, bad_hex};

// Which letters are digits: a to f alone, or A to F too. A value, since a type parameter in its place would take from callers the choice at run time. It stands beside the digits and not in a struct with them: half of the calls have no letters.
#[derive(Clone, Copy, Debug, PartialEq, Eq)]
pub enum Letters {
    Lower,
    Either,
}

// char::to_digit would be no plainer: it takes capitals too, and gives a u32.
fn lower_value(c: u8) -> Option<u8>
    ensures { result ≡ low_value c }
{
    match c {
        b'0'..=b'9' => Some(c - b'0'),
        b'a'..=b'f' => Some(c - b'a' + 10),
        _ => None,
    }
}

// `to_digit` would take small letters too.
fn capital_value(c: u8) -> Option<u8>
    ensures { result ≡ capital_value c }
{
    match c {
        b'A'..=b'F' => Some(c - b'A' + 10),
        _ => None,
    }
}

// The value of a digit.
pub fn hex_value(letters: Letters, c: u8) -> Option<u8>
    ensures value { result ≡ value_of letters c }
    ensures small { IfSome result (λ n. n < 16) }
{
    match letters {
        Letters::Lower => lower_value(c),
        Letters::Either => lower_value(c).or(capital_value(c)),
    }
}

// The value of a digit, and 0 of any other byte.
pub(crate) fn value_by(letters: Letters, c: u8) -> u8
    ensures value { result ≡ value_or_zero letters c }
    ensures small { result < 16 }
{
    hex_value(letters, c).unwrap_or(0)
}

// The same where the letters of either case are digits.
pub fn value_or_zero(c: u8) -> u8
    ensures value { result ≡ digit_value c }
    ensures small { result < 16 }
{
    value_by(Letters::Either, c)
}

// The place of the first byte that is no digit.
fn first_bad(letters: Letters, digits: &[u8]) -> Option<usize>
    ensures { result ≡ position (λ c. is_none (value_of letters c)) digits.now }
{
    digits.iter().position(|c| hex_value(letters, *c).is_none())
}

// The place, from 0, that spoils the digits: the first byte that is none, or the end where their count is odd.
pub fn bad_place(letters: Letters, digits: &[u8]) -> Option<usize>
    ensures { result ≡ bad_hex letters digits.now }
{
    let odd = (digits.len() % 2 == 1).then_some(digits.len());
    first_bad(letters, digits).or(odd)
}

// The lower-case digit of the low four bits. `char::from_digit` would be no shorter: it gives an `Option` of a `char`.
pub fn hex_digit(n: u8) -> u8
    ensures { result ≡ hex_digit (n % 16) }
{
    let low = n % 16;
    if low < 10 {
        b'0' + low
    } else {
        b'a' + (low - 10)
    }
}
