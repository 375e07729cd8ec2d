// An end that is taken through a list of calls.
ghost use Rattle.std.specs.Prelude.{◌≡◌};
ghost use Rattle.link.specs.Calls.{stands};
ghost use Rattle.link.specs.Frames.{started};
ghost use Rattle.rehearsal.specs.Law.{Run};
ghost use Rattle.rehearsal.specs.Rehearsals.{Transition, taking, writing, Answered};

use crate::calls::{Answer, Call, Message, Request};
use duplex::Engine;
use link::{End, Kind, LinkFault, Receiving, ReceivingEnd, Sending, SendingEnd};
use session::{Key, Nonce};

// What an end of a direction makes of an input: all else the ends have in common.
pub trait Direction {
    type Input;

    type Output: Drop;

    ghost transition: { Transition Self.Input Self.Output };

    fn process<E: Engine>(
        end: &mut End<E, Self>,
        input: &Self::Input,
        buffer: &mut [u8],
    ) -> Result<Self::Output, LinkFault>
        ensures answer { result ≡ transition.answer (stands E.bits end.old) input.now buffer.old }
        ensures buffer { buffer.new ≡ transition.buffer (stands E.bits end.old) input.now buffer.old }
        ensures moved { stands E.bits end.new ≡ transition.standing (stands E.bits end.old) input.now buffer.old };
}

impl Direction for Receiving {
    type Input = Vec<u8>;

    type Output = Kind;

    ghost transition = { taking };

    fn process<E: Engine>(
        end: &mut ReceivingEnd<E>,
        frame: &Vec<u8>,
        text: &mut [u8],
    ) -> Result<Kind, LinkFault> {
        end.take(frame.as_slice(), text)
    }
}

impl Direction for Sending {
    type Input = Message;

    type Output = (usize, u32);

    ghost transition = { writing };

    fn process<E: Engine>(
        end: &mut SendingEnd<E>,
        message: &Message,
        frame: &mut [u8],
    ) -> Result<(usize, u32), LinkFault> {
        end.write(message.kind, message.text.as_slice(), frame)
    }
}

// Takes a new end through a list of calls, and fills in its answers.
pub fn play<E: Engine, D: Direction>(
    key: &Key,
    nonce: &Nonce,
    calls: &mut [Call<D::Input, D::Output>],
) -> End<E, D>
    ensures { Run (Answered D.transition) (started key.now.bytes nonce.now.bytes) calls.old calls.new (stands E.bits result) }
{
    let mut end = End::begin(key, nonce);
    for call in calls.iter_mut() {
        respond(&mut end, call);
    }
    end
}

// One call.
fn respond<E: Engine, D: Direction>(end: &mut End<E, D>, call: &mut Call<D::Input, D::Output>)
    ensures { Answered D.transition (stands E.bits end.old) call.old call.new (stands E.bits end.new) }
{
    call.answer = match &call.request {
        Request::Process(input) => {
            Answer::Processed(D::process(end, input, call.buffer.as_mut_slice()))
        }
        Request::Tell => Answer::Told(end.tell()),
    };
}
