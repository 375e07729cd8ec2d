// Words of hex digits, and what is told of a wrong one.
ghost use Rattle.std.specs.Prelude.{◌≡◌, ◌⊎◌, MatchResult, Ok, Err};
ghost use Rattle.std.specs.Result.{result_map_both};
ghost use Rattle.sealed.specs.Words.{written_bytes, written_sixteen};
ghost use Rattle.seal.specs.declared.fault.Fault.TheVariants.{Hex, Memory};
ghost use Rattle.seal.specs.Words.{told_of};

use crate::fault::{Fault, Subject};
use sealed::WordFault;
use std::alloc::Global;

fn of_word(subject: Subject, fault: WordFault) -> Fault
    ensures { result ≡ told_of subject fault }
{
    match fault {
        WordFault::Hex(fault) => Fault::Hex { subject, fault },
        WordFault::Memory => Fault::Memory,
    }
}

// The bytes that a word writes, unless there is no memory for them.
pub fn hex_bytes(heap: Global, subject: Subject, digits: &str) -> Result<Vec<u8>, Fault>
    ensures { MatchResult result (λ v. Ok v.items ≡ written_bytes digits.now) (λ e. (e ≡ Memory) ⊎ (Err e ≡ result_map_both (λ b. b) (told_of subject) (written_bytes digits.now))) }
{
    sealed::hex_bytes(heap, digits.as_bytes()).map_err(|fault| of_word(subject, fault))
}

// The 16 bytes that a word writes.
pub fn sixteen_bytes(subject: Subject, digits: &str) -> Result<[u8; 16], Fault>
    ensures { result ≡ result_map_both (λ b. b) (Hex subject) (written_sixteen digits.now) }
{
    sealed::sixteen_bytes(digits.as_bytes()).map_err(|fault| Fault::Hex { subject, fault })
}
