// Sealed bytes: a ciphertext, and its tag after it.
ghost use Rattle.std.specs.Prelude.{◌≡◌, ◌⊎◌, MatchResult, Ok, Err};
ghost use Rattle.session.specs.Sessions.{begun};
ghost use Rattle.sealed.specs.Bytes.{sealed_bytes, opened_file, OpensSealed};
ghost use Rattle.sealed.specs.declared.fault.SealedFault.TheVariants.{Memory};

use crate::fault::SealedFault;
use plain::Plain;
use session::{Key, Nonce, Session, Tag};
use std::alloc::Global;

pub fn seal(
    heap: Global,
    key: &Key,
    nonce: &Nonce,
    ad: &[u8],
    text: &[u8],
) -> Result<Vec<u8>, SealedFault>
    ensures { MatchResult result (λ v. v.items ≡ sealed_bytes (begun key.now.bytes nonce.now.bytes) ad.now text.now) (λ e. e ≡ Memory) }
{
    let mut session = Session::<Plain>::begin(key, nonce);
    let mut sealed = vec![in heap; 0; text.len()]?;
    let mut tag = Tag { bytes: [0; 16] };
    session.seal(ad, text, sealed.as_mut_slice(), &mut tag)?;
    sealed.extend_from_slice(&tag.bytes)?;
    Ok(sealed)
}

// The text of sealed bytes, unless there is no memory for it.
pub fn open(
    heap: Global,
    key: &Key,
    nonce: &Nonce,
    ad: &[u8],
    sealed: &[u8],
) -> Result<Vec<u8>, SealedFault>
    ensures value { MatchResult result (λ v. Ok v.items ≡ opened_file (begun key.now.bytes nonce.now.bytes) ad.now sealed.now) (λ e. (e ≡ Memory) ⊎ (Err e ≡ opened_file (begun key.now.bytes nonce.now.bytes) ad.now sealed.now)) }
    ensures only { OpensSealed (begun key.now.bytes nonce.now.bytes) ad.now sealed.now }
{
    let length = sealed.len();
    let Some((ciphertext, tag)) = sealed.split_last_chunk::<16>() else {
        return Err(SealedFault::Tagless { length });
    };
    let tag = Tag { bytes: *tag };
    let mut session = Session::<Plain>::begin(key, nonce);
    let mut text = vec![in heap; 0; ciphertext.len()]?;
    session.open(ad, ciphertext, &tag, text.as_mut_slice())?;
    Ok(text)
}
