// Sending and receiving ends for C.
ghost use Rattle.std.specs.Prelude.{◌≡◌, length, Ok, IsOk};
ghost use Rattle.link.specs.Frames.{Standing, started};
ghost use Rattle.link.specs.Calls.{write_standing, take_answer, take_standing};
ghost use Rattle.cowslip.specs.Memory.{sender_mark, receiver_mark, end_size, kept_end};
ghost use Rattle.cowslip.specs.Calls.{Reports, begin_outcome, begin_memory, end_for, write_outcome, write_memory, write_buffer, take_outcome, take_memory, take_buffer, tell_outcome};
ghost use Rattle.cowslip.specs.Laws.{WritesFrame, OnlyThere, TakesFrame, OnlyWritten};

use crate::fault::CallFault;
use crate::memory::{Direction, load_end, store_end};
use crate::report::{Answer, report};
use crate::values::fixed;
use link::{End, Receiving, Sending};
use postponed::Postponed;
use session::{Key, Nonce};

// Begins a sending end in lent memory. C has a function for each direction.
#[unsafe(no_mangle)]
pub extern "C" fn cowslip_sender_begin(
    key: &[u8],
    nonce: &[u8],
    end: &mut [u8],
    told: &mut [usize],
) -> u32
    ensures answer { Reports (begin_outcome end_size key.now nonce.now end.old) result told.old told.new }
    ensures memory { end.new ≡ begin_memory end_size key.now nonce.now (kept_end sender_mark (started key.now nonce.now)) end.old }
    ensures next { result ≡ 0 → end_for sender_mark end.new ≡ Ok (started key.now nonce.now) }
{
    report(begin::<Sending>(key, nonce, end), told)
}

// Begins a receiving end in lent memory. C has a function for each direction.
#[unsafe(no_mangle)]
pub extern "C" fn cowslip_receiver_begin(
    key: &[u8],
    nonce: &[u8],
    end: &mut [u8],
    told: &mut [usize],
) -> u32
    ensures answer { Reports (begin_outcome end_size key.now nonce.now end.old) result told.old told.new }
    ensures memory { end.new ≡ begin_memory end_size key.now nonce.now (kept_end receiver_mark (started key.now nonce.now)) end.old }
    ensures next { result ≡ 0 → end_for receiver_mark end.new ≡ Ok (started key.now nonce.now) }
{
    report(begin::<Receiving>(key, nonce, end), told)
}

// How many frames a sending end has written. C has a function for each direction.
#[unsafe(no_mangle)]
pub extern "C" fn cowslip_sender_tell(end: &[u8], told: &mut [usize]) -> u32
    ensures answer { Reports (tell_outcome sender_mark end.now) result told.old told.new }
{
    report(tell::<Sending>(end), told)
}

// How many frames a receiving end has taken. C has a function for each direction.
#[unsafe(no_mangle)]
pub extern "C" fn cowslip_receiver_tell(end: &[u8], told: &mut [usize]) -> u32
    ensures answer { Reports (tell_outcome receiver_mark end.now) result told.old told.new }
{
    report(tell::<Receiving>(end), told)
}

// Writes the frame of a text to the front of `out`. The kind is a byte, since one that stands for no kind is refused by 3. It cannot know whether the memory came from a beginning, or has a copy.
#[unsafe(no_mangle)]
pub unsafe extern "C" fn cowslip_sender_write(
    end: &mut [u8],
    kind: u8,
    text: &[u8],
    out: &mut [u8],
    told: &mut [usize],
) -> u32
    ensures answer { Reports (write_outcome end.old kind text.now (length out.old)) result told.old told.new }
    ensures memory { end.new ≡ write_memory end.old kind text.now (length out.old) }
    ensures out { out.new ≡ write_buffer end.old kind text.now out.old }
    ensures next { (m : Standing) → end_for sender_mark end.old ≡ Ok m → end_for sender_mark end.new ≡ Ok (write_standing m kind text.now (length out.old)) }
    ensures exact { WritesFrame end.old kind text.now out.old result end.new out.new }
    ensures only { OnlyThere end.old kind text.now out.old result }
{
    write_and_report(end, kind, text, out, told)
}

// Takes a frame: its text to the front of `text`. It cannot know whether the memory came from a beginning, or has a copy.
#[unsafe(no_mangle)]
pub unsafe extern "C" fn cowslip_receiver_take(
    end: &mut [u8],
    frame: &[u8],
    text: &mut [u8],
    told: &mut [usize],
) -> u32
    ensures answer { Reports (take_outcome end.old frame.now (length text.old)) result told.old told.new }
    ensures memory { end.new ≡ take_memory end.old frame.now (length text.old) }
    ensures text { text.new ≡ take_buffer end.old frame.now text.old }
    ensures next { (m : Standing) → end_for receiver_mark end.old ≡ Ok m → end_for receiver_mark end.new ≡ Ok (take_standing m frame.now (take_answer m frame.now (length text.old))) }
    ensures exact { TakesFrame end.old frame.now text.old result end.new text.new }
    ensures only { OnlyWritten end.old frame.now result }
{
    take_and_report(end, frame, text, told)
}

fn begin<D: Direction>(key: &[u8], nonce: &[u8], memory: &mut [u8]) -> Result<Answer, CallFault>
    ensures value { result ≡ begin_outcome end_size key.now nonce.now memory.old }
    ensures memory { memory.new ≡ begin_memory end_size key.now nonce.now (kept_end D.MARK (started key.now nonce.now)) memory.old }
    ensures next { IsOk result → end_for D.MARK memory.new ≡ Ok (started key.now nonce.now) }
{
    let key = Key {
        bytes: fixed(key, 0)?,
    };
    let nonce = Nonce {
        bytes: fixed(nonce, 1)?,
    };
    let memory = memory
        .as_mut_array()
        .ok_or(CallFault::ArgumentLength { argument: 2 })?;
    store_end(End::<Postponed, D>::begin(&key, &nonce), memory);
    Ok(Answer::Nothing)
}

fn tell<D: Direction>(memory: &[u8]) -> Result<Answer, CallFault>
    ensures { result ≡ tell_outcome D.MARK memory.now }
{
    let end = load_end::<D>(&fixed(memory, 0)?)?;
    Ok(Answer::One(end.close() as usize))
}

// What a writing returns and leaves, byte for byte: the two theorems on it follow from these clauses alone.
fn write_and_report(
    end: &mut [u8],
    kind: u8,
    text: &[u8],
    out: &mut [u8],
    told: &mut [usize],
) -> u32
    ensures answer { Reports (write_outcome end.old kind text.now (length out.old)) result told.old told.new }
    ensures memory { end.new ≡ write_memory end.old kind text.now (length out.old) }
    ensures out { out.new ≡ write_buffer end.old kind text.now out.old }
    ensures next { (m : Standing) → end_for sender_mark end.old ≡ Ok m → end_for sender_mark end.new ≡ Ok (write_standing m kind text.now (length out.old)) }
{
    report(write(end, kind, text, out), told)
}

// What a taking returns and leaves, byte for byte: the two theorems on it follow from these clauses alone.
fn take_and_report(end: &mut [u8], frame: &[u8], text: &mut [u8], told: &mut [usize]) -> u32
    ensures answer { Reports (take_outcome end.old frame.now (length text.old)) result told.old told.new }
    ensures memory { end.new ≡ take_memory end.old frame.now (length text.old) }
    ensures text { text.new ≡ take_buffer end.old frame.now text.old }
    ensures next { (m : Standing) → end_for receiver_mark end.old ≡ Ok m → end_for receiver_mark end.new ≡ Ok (take_standing m frame.now (take_answer m frame.now (length text.old))) }
{
    report(take(end, frame, text), told)
}

fn write(memory: &mut [u8], kind: u8, text: &[u8], out: &mut [u8]) -> Result<Answer, CallFault>
    ensures value { result ≡ write_outcome memory.old kind text.now (length out.old) }
    ensures memory { memory.new ≡ write_memory memory.old kind text.now (length out.old) }
    ensures out { out.new ≡ write_buffer memory.old kind text.now out.old }
    ensures next { (m : Standing) → end_for sender_mark memory.old ≡ Ok m → end_for sender_mark memory.new ≡ Ok (write_standing m kind text.now (length out.old)) }
{
    let memory = memory
        .as_mut_array()
        .ok_or(CallFault::ArgumentLength { argument: 0 })?;
    let mut end = load_end::<Sending>(memory)?;
    let (length, number) = end.write(kind, text, out)?;
    store_end(end, memory);
    Ok(Answer::Two(length, number as usize))
}

fn take(memory: &mut [u8], frame: &[u8], text: &mut [u8]) -> Result<Answer, CallFault>
    ensures value { result ≡ take_outcome memory.old frame.now (length text.old) }
    ensures memory { memory.new ≡ take_memory memory.old frame.now (length text.old) }
    ensures text { text.new ≡ take_buffer memory.old frame.now text.old }
    ensures next { (m : Standing) → end_for receiver_mark memory.old ≡ Ok m → end_for receiver_mark memory.new ≡ Ok (take_standing m frame.now (take_answer m frame.now (length text.old))) }
{
    let memory = memory
        .as_mut_array()
        .ok_or(CallFault::ArgumentLength { argument: 0 })?;
    let mut end = load_end::<Receiving>(memory)?;
    let kind = end.take(frame, text)?;
    store_end(end, memory);
    Ok(Answer::One(usize::from(u8::from(kind))))
}
