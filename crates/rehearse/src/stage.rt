// The rehearsal of a script on three engines.
use crate::courier::{Courier, Note, list_orders, written_frame};
use crate::script::{Entry, Opening};
use duplex::Engine;
use plain::Plain;
use postponed::Postponed;
use rehearsal::{Answer, Call, Ends, ReceivingCall, Request, SendingCall, rehearse};
use std::alloc::{AllocError, Global};
use words::Packed;

// The head, the second receiving end and the panel.
type Cast = Ends<Plain, Packed, Postponed>;

#[derive(Drop)]
pub struct Rehearsed {
    pub orders: Vec<SendingCall>,
    pub calls: Vec<ReceivingCall>,
    pub again: Vec<ReceivingCall>,
    pub notes: Vec<Note>,
    ends: Cast,
}

// Whether the head has not refused.
fn is_kept(call: &ReceivingCall) -> bool {
    !matches!(call.answer, Answer::Processed(Err(_)))
}

// The same call, not yet answered.
fn unanswered(heap: Global, call: &ReceivingCall) -> Result<ReceivingCall, AllocError> {
    let buffer = vec![in heap; 0; call.buffer.len()]?;
    Ok(Call::new(call.request.clone()?, buffer))
}

// The calls without the refused frames.
fn list_kept(heap: Global, calls: &[ReceivingCall]) -> Result<Vec<ReceivingCall>, AllocError> {
    let mut kept = Vec::new(heap);
    for call in calls.iter().filter(|call| is_kept(call)) {
        kept.push(unanswered(heap, call)?)?;
    }
    Ok(kept)
}

// Which frames there are to hand over shows once the panel has written them, and which calls the second end is given once the head has answered. So the orders are rehearsed alone, then with the calls, and at last all three lists together: only that rehearsal is told.
pub(crate) fn perform(
    heap: Global,
    opening: &Opening,
    entries: &[Entry],
) -> Result<Rehearsed, AllocError> {
    let Opening { key, nonce } = opening;
    let mut orders = list_orders(heap, entries)?;
    let _: Cast = rehearse(key, nonce, &mut [], &mut [], orders.as_mut_slice());
    let courier = Courier::new(heap, orders.as_slice());
    let (mut calls, notes) = courier.carry_all(entries)?;
    let _: Cast = rehearse(
        key,
        nonce,
        calls.as_mut_slice(),
        &mut [],
        orders.as_mut_slice(),
    );
    let mut again = list_kept(heap, calls.as_slice())?;
    let ends = rehearse(
        key,
        nonce,
        calls.as_mut_slice(),
        again.as_mut_slice(),
        orders.as_mut_slice(),
    );
    Ok(Rehearsed {
        orders,
        calls,
        again,
        notes,
        ends,
    })
}

// The frame that the head has accepted in a call, if it has.
fn accepted_frame(call: &ReceivingCall) -> Option<&[u8]> {
    match (&call.answer, &call.request) {
        (Answer::Processed(Ok(_)), Request::Process(frame)) => Some(frame.as_slice()),
        _ => None,
    }
}

impl Rehearsed {
    // The numbers of panel and head.
    pub(crate) fn numbers(&self) -> (u32, u32) {
        (self.ends.sender.tell(), self.ends.first.tell())
    }

    // Whether the frames that the head has accepted are all those that the panel has written. By the contract of `rehearse` both ends then stand at the same bits.
    pub(crate) fn took_all(&self) -> bool {
        let accepted = self.calls.iter().filter_map(accepted_frame);
        accepted.eq(self.orders.iter().filter_map(written_frame))
    }

    // Whether the second end has answered its calls as the head did.
    pub(crate) fn second_agrees(&self) -> bool {
        let kept = self.calls.iter().filter(|call| is_kept(call));
        kept.eq(self.again.iter()) && self.ends.first.tell() == self.ends.second.tell()
    }
}
