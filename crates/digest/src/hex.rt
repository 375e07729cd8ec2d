// Bytes that are written as hex digits.
ghost use Rattle.std.specs.Prelude.{◌≡◌, ◌++◌, IfOk, OnOk};
ghost use Rattle.digits.specs.Digits.{bad_hex};
ghost use Rattle.digits.specs.Pairs.{unhex};

use anyhow::bail;
use digits::{Letters, bad_place, bytes};
use std::alloc::Global;

// The bytes that a word's digits write, in a row of their own. The last byte of an odd count is told as that, whatever it is, and after every fault of a pair.
pub(crate) fn bytes_of(heap: Global, word: &str) -> anyhow::Result<Vec<u8>>
    ensures sound { OnOk result (bad_hex Letters.Either word.now ≡ None) }
    ensures bytes { IfOk result (λ row. row.items ≡ unhex word.now) }
{
    let digits = word.as_bytes();
    match bad_place(Letters::Either, digits) {
        None => Ok(bytes(heap, digits)?),
        Some(place) if place < 2 * (digits.len() / 2) => bail!("not a hex digit"),
        Some(_) => bail!("an odd count of hex digits"),
    }
}

// Appends the bytes that a word's digits write.
pub(crate) fn push_bytes(row: &mut Vec<u8>, word: &str) -> anyhow::Result<()>
    ensures sound { OnOk result (bad_hex Letters.Either word.now ≡ None) }
    ensures bytes { OnOk result (row.new.items ≡ row.old.items ++ unhex word.now) }
{
    Ok(row.extend_from_slice(&bytes_of(*row.allocator(), word)?)?)
}
