// A call at an end of a link, with the place for its answer.
ghost use Rattle.std.specs.Prelude.{◌≡◌};
ghost use Rattle.rehearsal.specs.declared.calls.Answer.{Answer};

use link::{Kind, LinkFault};

// What is asked of an end: to take or write its input, or to tell its number. An `Option` of an input would not say what is asked where there is none.
#[derive(Clone, PartialEq, Eq, Drop)]
pub enum Request<I> {
    Process(I),
    Tell,
}

// What an end answers: its output, or why it refuses; the number told.
#[derive(Clone, Copy, Debug, PartialEq, Eq)]
pub enum Answer<O> {
    Processed(Result<O, LinkFault>),
    Told(u32),
}

#[derive(PartialEq, Eq, Drop)]
pub struct Call<I, O> {
    pub request: Request<I>,
    // for the text of a frame that is taken, or the frame of a text that is written
    pub buffer: Vec<u8>,
    pub answer: Answer<O>,
}

impl<I: Drop, O: Drop> Call<I, O> {
    // A call that is to be made. Until then it reads as if a zero were told: the law reads an answer of each call, and a rehearsal fills in every one, so there is no Option.
    pub fn new(request: Request<I>, buffer: Vec<u8>) -> Call<I, O>
        ensures { result ≡ record { request = request; buffer = buffer; answer = Answer.Told 0 } }
    {
        Call {
            request,
            buffer,
            answer: Answer::Told(0),
        }
    }
}

// A text to write, and the byte of its kind, as a sending end takes it: it may stand for no kind.
#[derive(Drop)]
pub struct Message {
    pub kind: u8,
    pub text: Vec<u8>,
}

// A receiving end is asked to take a frame, and answers its kind.
pub type ReceivingCall = Call<Vec<u8>, Kind>;

// A sending end is asked to write a message, and answers the frame's length and the number that it carries.
pub type SendingCall = Call<Message, (usize, u32)>;
