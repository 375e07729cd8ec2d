// Words of hex digits.
ghost use Rattle.std.specs.Prelude.{◌≡◌, ◌⊎◌, MatchResult, Ok, Err};
ghost use Rattle.sealed.specs.Words.{hex_fault, sixteen_fault, unless, written_bytes, written_sixteen};
ghost use Rattle.sealed.specs.declared.fault.WordFault.TheVariants.{Memory};

use crate::fault::{HexFault, WordFault};
use digits::{Letters, bad_place, bytes, decode};
use std::alloc::Global;

// Refuses what spoils digits that are to write bytes. The programs `digest` and `rehearse` tell the two cases in their own words, by the same one comparison.
fn check(digits: &[u8]) -> Result<(), HexFault>
    ensures { result ≡ unless (hex_fault digits.now) tt }
{
    let Some(place) = bad_place(Letters::Either, digits) else {
        return Ok(());
    };
    let column = place + 1;
    if place < digits.len() {
        Err(HexFault::Digit { column })
    } else {
        Err(HexFault::Odd { column })
    }
}

// Refuses what spoils digits that are to write 16 bytes.
fn check_sixteen(digits: &[u8]) -> Result<(), HexFault>
    ensures { result ≡ unless (sixteen_fault digits.now) tt }
{
    check(digits)?;
    if digits.len() != 32 {
        return Err(HexFault::Count {
            digits: digits.len(),
        });
    }
    Ok(())
}

// The bytes that a word writes, unless there is no memory for them.
pub fn hex_bytes(heap: Global, digits: &[u8]) -> Result<Vec<u8>, WordFault>
    ensures { MatchResult result (λ v. Ok v.items ≡ written_bytes digits.now) (λ e. (e ≡ Memory) ⊎ (Err e ≡ written_bytes digits.now)) }
{
    check(digits)?;
    Ok(bytes(heap, digits)?)
}

// The 16 bytes that a word writes, as of a key or a nonce.
pub fn sixteen_bytes(digits: &[u8]) -> Result<[u8; 16], HexFault>
    ensures { result ≡ written_sixteen digits.now }
{
    check_sixteen(digits)?;
    let mut bytes = [0; 16];
    decode(digits, &mut bytes);
    Ok(bytes)
}
