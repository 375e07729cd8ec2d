// Pairs of digits, and the bytes that they write.
ghost use Rattle.std.specs.Prelude.{◌≡◌, IfOk};
ghost use Rattle.digits.specs.Pairs.{unhex_by, unhex, laid, DigitsReadBack};

use crate::single::{Letters, value_by};
use std::alloc::{AllocError, Global};

// Writes the bytes of the digits over the front of a buffer, as many as it has room for. A byte that is no digit counts as 0, and a last digit without a second one as nothing.
pub fn decode_by(letters: Letters, digits: &[u8], out: &mut [u8])
    ensures { out.new ≡ laid (unhex_by letters digits.now) out.old }
{
    let (pairs, _) = digits.as_chunks::<2>();
    let n = pairs.len().min(out.len());
    // Of what an `iter_mut` that is zipped leaves, nothing is known.
    for (i, [high, low]) in pairs[..n].iter().enumerate() {
        out[i] = 16 * value_by(letters, *high) + value_by(letters, *low);
    }
}

// The same where the letters of either case are digits.
pub fn decode(digits: &[u8], out: &mut [u8])
    ensures { out.new ≡ laid (unhex digits.now) out.old }
{
    decode_by(Letters::Either, digits, out);
}

// All bytes of the digits.
pub fn bytes_by(letters: Letters, heap: Global, digits: &[u8]) -> Result<Vec<u8>, AllocError>
    ensures { IfOk result (λ v. v.items ≡ unhex_by letters digits.now) }
{
    let mut bytes = vec![in heap; 0; digits.len() / 2]?;
    decode_by(letters, digits, bytes.as_mut_slice());
    Ok(bytes)
}

// The same where the letters of either case are digits.
pub fn bytes(heap: Global, digits: &[u8]) -> Result<Vec<u8>, AllocError>
    ensures { IfOk result (λ v. v.items ≡ unhex digits.now) }
{
    bytes_by(Letters::Either, heap, digits)
}

// The digits of bytes are sound, and write those bytes.
pub fn digits_read_back()
    ensures { DigitsReadBack }
{}

#[cfg(test)]
mod tests {
    use super::*;
    use std::test::Fail;

    #[test]
    fn bytes_of_either_case(rt: HostRuntime) -> Result<(), Fail> {
        let heap = rt.alloc();
        let small = bytes_by(Letters::Lower, heap, b"0aFf")?;
        assert_eq!(rt; small.as_slice(), [0x0a, 0x0f].as_slice());
        let either = bytes_by(Letters::Either, heap, b"0aFf")?;
        assert_eq!(rt; either.as_slice(), [0x0a, 0xff].as_slice());
        Ok(())
    }
}
