// All the frames that two ends have numbers for.
use crate::script::Opening;
use duplex::Engine;
use link::{Kind, LinkFault, NUMBER_LIMIT, OVERHEAD, ReceivingEnd, SendingEnd};

// The bytes of a heartbeat's frame, whose text is empty.
const FRAME: usize = OVERHEAD;

// What came of it: how many heartbeats were written with their number and taken, and the numbers of both ends.
#[derive(Clone, Copy, PartialEq)]
pub struct Tally {
    pub passed: u32,
    pub panel: u32,
    pub head: u32,
    // why one more heartbeat is not written, and one more frame not taken
    pub unwritten: Option<LinkFault>,
    pub untaken: Option<LinkFault>,
}

// Whether the next heartbeat is written with this number, and taken.
fn pass<W: Engine, R: Engine>(
    panel: &mut SendingEnd<W>,
    head: &mut ReceivingEnd<R>,
    number: u32,
) -> bool {
    let mut frame = [0u8; FRAME];
    match panel.write(Kind::Heartbeat.into(), &[], &mut frame) {
        Ok((FRAME, carried)) => {
            carried == number && head.take(&frame, &mut []).is_ok() && head.tell() == panel.tell()
        }
        _ => false,
    }
}

// Passes heartbeats from a panel to a head until all numbers are used, and tries one more.
pub(crate) fn pass_all<W: Engine, R: Engine>(opening: &Opening) -> Tally {
    let Opening { key, nonce } = opening;
    let mut panel = SendingEnd::<W>::begin(key, nonce);
    let mut head = ReceivingEnd::<R>::begin(key, nonce);
    // `take_while(..).count()` is no plainer: its closure changes both ends, and the count is a usize.
    let mut passed = 0;
    for number in 0..NUMBER_LIMIT {
        if !pass(&mut panel, &mut head, number) {
            break;
        }
        passed = number + 1;
    }
    let mut frame = [0u8; FRAME];
    let unwritten = panel.write(Kind::Heartbeat.into(), &[], &mut frame).err();
    let untaken = head.take(&frame, &mut []).err();
    Tally {
        passed,
        panel: panel.close(),
        head: head.close(),
        unwritten,
        untaken,
    }
}

impl Tally {
    // Whether all numbers were used, and no more.
    pub(crate) fn is_full(&self) -> bool {
        *self
            == Tally {
                passed: NUMBER_LIMIT,
                panel: NUMBER_LIMIT,
                head: NUMBER_LIMIT,
                unwritten: Some(LinkFault::Spent),
                untaken: Some(LinkFault::Spent),
            }
    }
}
