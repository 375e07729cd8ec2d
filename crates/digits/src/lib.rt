// Hex digits: their values, what spoils them, the bytes that they write, and the digits of bytes.
#![tactic(auto)]

mod pairs;
mod single;
mod text;

pub use pairs::{bytes, bytes_by, decode, decode_by, digits_read_back};
pub use single::{Letters, bad_place, hex_digit, hex_value, value_or_zero};
pub use text::{Capitals, Hex};
