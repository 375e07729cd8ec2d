// Rehearsals: whole runs of two receiving ends and a sending end, with one key and nonce.
#![tactic(auto)]

ghost use Rattle.link.specs.Calls.{stands};
ghost use Rattle.rehearsal.specs.Rehearsals.{EachCall, Agreed};

use crate::endpoint::play;
use duplex::Engine;
use link::{ReceivingEnd, SendingEnd};
use session::{Key, Nonce};

mod calls;
mod endpoint;

pub use calls::{Answer, Call, Message, ReceivingCall, Request, SendingCall};

// The three ends of a rehearsal.
#[derive(Drop)]
pub struct Ends<R, S, W> {
    pub first: ReceivingEnd<R>,
    pub second: ReceivingEnd<S>,
    pub sender: SendingEnd<W>,
}

// Takes a receiving end through `calls`, a second one through `again` and a sending end through `orders`, and fills in their answers. Key and nonce stay two arguments, as of a session: a key outlives a nonce.
pub fn rehearse<R: Engine, S: Engine, W: Engine>(
    key: &Key,
    nonce: &Nonce,
    calls: &mut [ReceivingCall],
    again: &mut [ReceivingCall],
    orders: &mut [SendingCall],
) -> Ends<R, S, W>
    ensures each { EachCall key.now.bytes nonce.now.bytes calls.old calls.new again.old again.new orders.old orders.new (stands R.Engine.bits result.first) (stands S.Engine.bits result.second) (stands W.Engine.bits result.sender) }
    ensures law { Agreed key.now.bytes nonce.now.bytes calls.old calls.new again.old again.new orders.old orders.new (stands R.Engine.bits result.first) (stands S.Engine.bits result.second) (stands W.Engine.bits result.sender) }
{
    let first = play(key, nonce, calls);
    let second = play(key, nonce, again);
    let sender = play(key, nonce, orders);
    Ends {
        first,
        second,
        sender,
    }
}
