// Sessions for C.
ghost use Rattle.std.specs.Prelude.{◌≡◌, ℕ, List, length, Ok, IsOk};
ghost use Rattle.session.specs.Sessions.{begun};
ghost use Rattle.session.specs.Calls.{seal_answer, seal_bits, open_answer, open_bits};
ghost use Rattle.cowslip.specs.Memory.{session_size, kept_session};
ghost use Rattle.cowslip.specs.Calls.{Reports, begin_outcome, begin_memory, session_for, seal_outcome, seal_memory, seal_buffer, seal_tag_bytes, open_outcome, open_memory, open_buffer};
ghost use Rattle.cowslip.specs.Laws.{ReadsBack, Follows, OnlySealed};

use crate::fault::CallFault;
use crate::memory::{load_session, store_session};
use crate::report::{Answer, report};
use crate::values::fixed;
use session::{Key, Nonce, Session, SessionFault, Tag};

// Begins a session in lent memory.
#[unsafe(no_mangle)]
pub extern "C" fn cowslip_session_begin(
    key: &[u8],
    nonce: &[u8],
    session: &mut [u8],
    told: &mut [usize],
) -> u32
    ensures answer { Reports (begin_outcome session_size key.now nonce.now session.old) result told.old told.new }
    ensures memory { session.new ≡ begin_memory session_size key.now nonce.now (kept_session (begun key.now nonce.now)) session.old }
    ensures next { result ≡ 0 → (argument : ℕ) → session_for session.new argument 16 ≡ Ok (begun key.now nonce.now) }
{
    report(begin(key, nonce, session), told)
}

// Seals a text: ciphertext to the front of `out`, tag into `tag`. It cannot know whether the memory came from a beginning.
#[unsafe(no_mangle)]
pub unsafe extern "C" fn cowslip_session_seal(
    session: &mut [u8],
    ad: &[u8],
    text: &[u8],
    out: &mut [u8],
    tag: &mut [u8],
    told: &mut [usize],
) -> u32
    ensures answer { Reports (seal_outcome session.old text.now (length out.old) (length tag.old)) result told.old told.new }
    ensures memory { session.new ≡ seal_memory session.old ad.now text.now (length out.old) (length tag.old) }
    ensures out { out.new ≡ seal_buffer session.old ad.now text.now out.old (length tag.old) }
    ensures tag { tag.new ≡ seal_tag_bytes session.old ad.now text.now (length out.old) tag.old }
    ensures next { (s : List ℕ) (argument : ℕ) → session_for session.old 4 (length tag.old) ≡ Ok s → session_for session.new argument 16 ≡ Ok (seal_bits s ad.now text.now (seal_answer text.now (length out.old))) }
{
    report(seal(session, ad, text, out, tag), told)
}

// Opens a ciphertext into the front of `out`. It cannot know whether the memory came from a beginning.
#[unsafe(no_mangle)]
pub unsafe extern "C" fn cowslip_session_open(
    session: &mut [u8],
    ad: &[u8],
    ciphertext: &[u8],
    tag: &[u8],
    out: &mut [u8],
    told: &mut [usize],
) -> u32
    ensures answer { Reports (open_outcome session.old ad.now ciphertext.now tag.now (length out.old)) result told.old told.new }
    ensures memory { session.new ≡ open_memory session.old ad.now ciphertext.now tag.now (length out.old) }
    ensures out { out.new ≡ open_buffer session.old ad.now ciphertext.now tag.now out.old }
    ensures next { (s : List ℕ) (argument : ℕ) → session_for session.old 3 (length tag.now) ≡ Ok s → session_for session.new argument 16 ≡ Ok (open_bits s ad.now ciphertext.now (open_answer s ad.now ciphertext.now tag.now (length out.old))) }
    ensures back { ReadsBack session.old ad.now ciphertext.now tag.now out.old result out.new }
    ensures follows { Follows session.old ad.now ciphertext.now tag.now out.old session.new }
    ensures only { OnlySealed session.old ad.now ciphertext.now tag.now result session.new out.new }
{
    open_and_report(session, ad, ciphertext, tag, out, told)
}

// As the `begin` of ends: one function of both would need a trait of sessions and ends, which is no shorter.
fn begin(key: &[u8], nonce: &[u8], memory: &mut [u8]) -> Result<Answer, CallFault>
    ensures value { result ≡ begin_outcome session_size key.now nonce.now memory.old }
    ensures memory { memory.new ≡ begin_memory session_size key.now nonce.now (kept_session (begun key.now nonce.now)) memory.old }
    ensures next { IsOk result → (argument : ℕ) → session_for memory.new argument 16 ≡ Ok (begun key.now nonce.now) }
{
    let key = Key {
        bytes: fixed(key, 0)?,
    };
    let nonce = Nonce {
        bytes: fixed(nonce, 1)?,
    };
    let memory = memory
        .as_mut_array()
        .ok_or(CallFault::ArgumentLength { argument: 2 })?;
    store_session(Session::begin(&key, &nonce), memory);
    Ok(Answer::Nothing)
}

fn seal(
    memory: &mut [u8],
    ad: &[u8],
    text: &[u8],
    out: &mut [u8],
    tag: &mut [u8],
) -> Result<Answer, CallFault>
    ensures value { result ≡ seal_outcome memory.old text.now (length out.old) (length tag.old) }
    ensures memory { memory.new ≡ seal_memory memory.old ad.now text.now (length out.old) (length tag.old) }
    ensures out { out.new ≡ seal_buffer memory.old ad.now text.now out.old (length tag.old) }
    ensures tag { tag.new ≡ seal_tag_bytes memory.old ad.now text.now (length out.old) tag.old }
    ensures next { (s : List ℕ) (argument : ℕ) → session_for memory.old 4 (length tag.old) ≡ Ok s → session_for memory.new argument 16 ≡ Ok (seal_bits s ad.now text.now (seal_answer text.now (length out.old))) }
{
    let memory = memory
        .as_mut_array()
        .ok_or(CallFault::ArgumentLength { argument: 0 })?;
    let tag = tag
        .as_mut_array()
        .ok_or(CallFault::ArgumentLength { argument: 4 })?;
    let mut session = load_session(memory)?;
    let mut made = Tag { bytes: [0; 16] };
    let length = session.seal(ad, text, out, &mut made)?;
    *tag = made.bytes;
    store_session(session, memory);
    Ok(Answer::One(length))
}

// What an opening returns and leaves, byte for byte: the three theorems on it follow from these clauses alone.
fn open_and_report(
    session: &mut [u8],
    ad: &[u8],
    ciphertext: &[u8],
    tag: &[u8],
    out: &mut [u8],
    told: &mut [usize],
) -> u32
    ensures answer { Reports (open_outcome session.old ad.now ciphertext.now tag.now (length out.old)) result told.old told.new }
    ensures memory { session.new ≡ open_memory session.old ad.now ciphertext.now tag.now (length out.old) }
    ensures out { out.new ≡ open_buffer session.old ad.now ciphertext.now tag.now out.old }
    ensures next { (s : List ℕ) (argument : ℕ) → session_for session.old 3 (length tag.now) ≡ Ok s → session_for session.new argument 16 ≡ Ok (open_bits s ad.now ciphertext.now (open_answer s ad.now ciphertext.now tag.now (length out.old))) }
{
    report(open(session, ad, ciphertext, tag, out), told)
}

fn open(
    memory: &mut [u8],
    ad: &[u8],
    ciphertext: &[u8],
    tag: &[u8],
    out: &mut [u8],
) -> Result<Answer, CallFault>
    ensures value { result ≡ open_outcome memory.old ad.now ciphertext.now tag.now (length out.old) }
    ensures memory { memory.new ≡ open_memory memory.old ad.now ciphertext.now tag.now (length out.old) }
    ensures out { out.new ≡ open_buffer memory.old ad.now ciphertext.now tag.now out.old }
    ensures next { (s : List ℕ) (argument : ℕ) → session_for memory.old 3 (length tag.now) ≡ Ok s → session_for memory.new argument 16 ≡ Ok (open_bits s ad.now ciphertext.now (open_answer s ad.now ciphertext.now tag.now (length out.old))) }
{
    let memory = memory
        .as_mut_array()
        .ok_or(CallFault::ArgumentLength { argument: 0 })?;
    let tag = Tag {
        bytes: fixed(tag, 3)?,
    };
    let mut session = load_session(memory)?;
    let opened = session.open(ad, ciphertext, &tag, out);
    // A session that is short of room has not moved, and its memory is left alone.
    if !matches!(opened, Err(SessionFault::Short { .. })) {
        store_session(session, memory);
    }
    Ok(Answer::One(opened?))
}
