// Digest and deck for C.
ghost use Rattle.std.specs.Prelude.{◌≡◌, length};
ghost use Rattle.digests.specs.Digests.{digest_of, deck_of};
ghost use Rattle.digests.specs.Entries.{first_outside, answered, cuts};
ghost use Rattle.digests.specs.declared.entries.EntryFault.TheVariants.{Digest, Deck};
ghost use Rattle.cowslip.specs.Calls.{Reports, buffer_with, of_entries};

use crate::fault::CallFault;
use crate::report::{Answer, report};
use digests::{Entry, EntryFault, deck, digest};
use postponed::Postponed;

// Fills `out` with the digest of the strings that the entries cut out of the buffer.
#[unsafe(no_mangle)]
pub extern "C" fn cowslip_digest(
    buffer: &[u8],
    entries: &[Entry],
    out: &mut [u8],
    told: &mut [usize],
) -> u32
    ensures answer { Reports (of_entries (answered Digest (first_outside (length buffer.now) entries.now))) result told.old told.new }
    ensures out { out.new ≡ buffer_with (answered Digest (first_outside (length buffer.now) entries.now)) (λ u. digest_of (cuts buffer.now entries.now) (length out.old)) out.old }
{
    report(filled(digest::<Postponed>(buffer, entries, out)), told)
}

// Fills `out` with what the deck function gives for a key and the strings that the entries cut out of the buffer.
#[unsafe(no_mangle)]
pub extern "C" fn cowslip_deck(
    key: &[u8],
    buffer: &[u8],
    entries: &[Entry],
    out: &mut [u8],
    told: &mut [usize],
) -> u32
    ensures answer { Reports (of_entries (answered Deck (first_outside (length buffer.now) entries.now))) result told.old told.new }
    ensures out { out.new ≡ buffer_with (answered Deck (first_outside (length buffer.now) entries.now)) (λ u. deck_of key.now (cuts buffer.now entries.now) (length out.old)) out.old }
{
    report(filled(deck::<Postponed>(key, buffer, entries, out)), told)
}

// The outcome of a call that fills a buffer.
fn filled(answer: Result<(), EntryFault>) -> Result<Answer, CallFault>
    ensures { result ≡ of_entries answer }
{
    answer?;
    Ok(Answer::Nothing)
}
