// How a call answers: a number is returned, and others are written into a lent slice.
ghost use Rattle.std.specs.Prelude.{◌≡◌, slice_set};
ghost use Rattle.cowslip.specs.Calls.{Reports};

use crate::fault::{CallFault, Told};

// The numbers that a call tells where it is not refused. Each count has its case, which the contracts name: an array of N numbers would need a parameter N through every call, and gives no shorter code.
#[derive(Clone, Copy, Debug, PartialEq, Eq)]
pub enum Answer {
    Nothing,
    One(usize),
    Two(usize, usize),
}

// Writes a number where there is a place for it. By an index: after a write through `get_mut` no element is known.
#[tactic(auto, using(std::proofs::lemmas::List::set_past))]
fn put(told: &mut [usize], place: usize, number: usize)
    ensures { told.new ≡ slice_set told.old place number }
{
    if place < told.len() {
        told[place] = number;
    }
}

// Tells the answer's numbers, or the refusal's place; returns 0, or the refusal's number.
pub(crate) fn report(outcome: Result<Answer, CallFault>, told: &mut [usize]) -> u32
    ensures { Reports outcome result told.old told.new }
{
    match outcome {
        Ok(Answer::Nothing) => 0,
        Ok(Answer::One(number)) => {
            put(told, 0, number);
            0
        }
        Ok(Answer::Two(first, second)) => {
            put(told, 0, first);
            put(told, 1, second);
            0
        }
        Err(fault) => {
            let refusal = Told::from(fault);
            put(told, 0, refusal.place);
            u32::from(refusal.number)
        }
    }
}
