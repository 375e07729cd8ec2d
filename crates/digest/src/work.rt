// The digest of an input, and the engine that computes all digests.
ghost use Rattle.std.specs.Prelude.{◌≡◌, ◌∷◌, [], IfOk, IfSome};
ghost use Rattle.digests.specs.Digests.{digest_of};

use digests::Feeding;
use duplex::Engine;
use postponed::Postponed;
use std::io;
use std::io::{ErrorKind, Read};

pub(crate) type Chosen = Postponed;

// The digest of an input as one string, read in pieces.
pub(crate) fn digest_input<R: Read>(input: &mut R) -> io::Result<[u8; 32]>
    ensures { IfOk result (λ digest. IfSome (R.remaining input.old) (λ bytes. digest ≡ digest_of (bytes ∷ []) 32)) }
{
    let mut feeding = Feeding::<Chosen>::new();
    let mut chunk = [0u8; 16384];
    // A loop is bounded; an input that outlasts this one is an error.
    for _ in 0..u64::MAX {
        let n = input.read(&mut chunk)?;
        if n == 0 {
            feeding.end_string();
            let mut squeezing = feeding.finish();
            let mut digest = [0u8; 32];
            squeezing.squeeze(&mut digest);
            return Ok(digest);
        }
        feeding.append(&chunk[..n]);
    }
    Err(ErrorKind::TimedOut.into())
}
