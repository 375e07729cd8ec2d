// Sessions and ends in memory that the caller lends.
ghost use Rattle.std.specs.Prelude.{◌≡◌, ℕ, ◌≤◌, length, Ok};
ghost use Rattle.std.specs.Result.{result_map_both};
ghost use Rattle.postponed.specs.Meaning.{meant};
ghost use Rattle.session.specs.Calls.{session_bits};
ghost use Rattle.link.specs.Calls.{stands};
ghost use Rattle.cowslip.specs.Memory.{sender_mark, receiver_mark, kept_session, kept_end, bits_in, session_in, end_in};

use crate::fault::CallFault;
use link::{End, Receiving, Sending};
use postponed::Postponed;
use session::Session;

// The memory of a session: a mark, and its bits. It is cut by ranges: an array pattern with a name for the rest gets no proof yet.
pub(crate) type SessionMemory = [u8; 34];

// The memory of an end: a mark, its session's bits, and its number.
pub(crate) type EndMemory = [u8; 38];

// The mark of a session.
const SESSION: u8 = 0x53;

// The direction of an end, by the mark of its memory.
pub(crate) trait Direction {
    ghost MARK: { ℕ };

    const MARK: u8;
}

impl Direction for Sending {
    ghost MARK = { sender_mark };

    const MARK: u8 = 0x57;
}

impl Direction for Receiving {
    ghost MARK = { receiver_mark };

    const MARK: u8 = 0x52;
}

// The session behind a mark. The mark is handed on as a byte: the memory of a session has one too, which is no direction's.
fn load(memory: &[u8], mark: u8) -> Result<Session<Postponed>, CallFault>
    requires { 34 ≤ length memory.now }
    ensures { result_map_both (session_bits meant) (λ e. e) result ≡ bits_in mark memory.now }
{
    if memory[0] != mark {
        return Err(CallFault::NoState);
    }
    let bits = memory[1..34].as_array().unwrap();
    Ok(unsafe { Session::resume(Postponed::from_bytes(bits)) })
}

pub(crate) fn load_session(memory: &SessionMemory) -> Result<Session<Postponed>, CallFault>
    ensures { result_map_both (session_bits meant) (λ e. e) result ≡ session_in memory.now }
{
    load(memory, SESSION)
}

pub(crate) fn store_session(session: Session<Postponed>, memory: &mut SessionMemory)
    ensures memory { memory.new ≡ kept_session (session_bits meant session) }
    ensures back { session_in memory.new ≡ Ok (session_bits meant session) }
{
    memory[0] = SESSION;
    memory[1..].copy_from_slice(&session.suspend().to_bytes());
}

pub(crate) fn load_end<D: Direction>(memory: &EndMemory) -> Result<End<Postponed, D>, CallFault>
    ensures { result_map_both (stands meant) (λ e. e) result ≡ end_in D.MARK memory.now }
{
    let session = load(memory, D::MARK)?;
    let number = u32::from_le_bytes(*memory[34..].as_array().unwrap());
    unsafe { End::resume(session, number) }.ok_or(CallFault::NoState)
}

pub(crate) fn store_end<D: Direction>(end: End<Postponed, D>, memory: &mut EndMemory)
    ensures memory { memory.new ≡ kept_end D.MARK (stands meant end) }
    ensures back { end_in D.MARK memory.new ≡ Ok (stands meant end) }
{
    let (session, number) = end.suspend();
    memory[0] = D::MARK;
    memory[1..34].copy_from_slice(&session.suspend().to_bytes());
    memory[34..].copy_from_slice(&number.to_le_bytes());
}
