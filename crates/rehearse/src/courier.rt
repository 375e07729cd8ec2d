// Carrying out a script: the frames that the panel writes, and what the head is handed of them.
use crate::fault::{Fault, Reason, Trouble};
use crate::script::{Entry, Figure, Place, Step};
use link::{Kind, OVERHEAD};
use rehearsal::{Answer, Call, Message, ReceivingCall, Request, SendingCall};
use std::alloc::{AllocError, Global};
use std::{fmt, slice};

// What the head is handed.
#[derive(Clone, Copy)]
pub enum Parcel {
    Frame(usize),
    Flipped(usize, usize),
    Given,
    Again,
}

impl fmt::Display for Parcel {
    fn fmt<W: fmt::Write>(&self, f: &mut fmt::Formatter<W>) -> fmt::Result {
        match *self {
            Parcel::Frame(n) => write!(f, "frame {n}"),
            Parcel::Flipped(n, bit) => write!(f, "frame {n} with bit {bit} flipped"),
            Parcel::Given => write!(f, "the given bytes"),
            Parcel::Again => write!(f, "the same bytes again"),
        }
    }
}

// What a line of the script led to. Calls come in the order of their lists; the head is handed something, or only asked to tell.
#[derive(Clone, Copy)]
pub enum Event {
    Opened,
    Panel,
    Head(Option<Parcel>),
    Lost(usize),
}

// What a line led to, or why it is not carried out.
#[derive(Clone, Copy)]
pub struct Note {
    pub line: usize,
    pub outcome: Result<Event, Fault>,
}

// Room for the text of every kind: a zone's name is the longest.
fn text_room() -> usize {
    Kind::ZoneName.text_len()
}

// A call that asks an end for its number.
fn telling<I: Drop, O: Drop>(heap: Global) -> Call<I, O> {
    Call::new(Request::Tell, Vec::new(heap))
}

// A call with an input, and so much room in its buffer.
fn processing<I: Drop, O: Drop>(
    heap: Global,
    input: I,
    room: usize,
) -> Result<Call<I, O>, AllocError> {
    let buffer = vec![in heap; 0; room]?;
    Ok(Call::new(Request::Process(input), buffer))
}

// The orders that a script has for the panel.
pub(crate) fn list_orders(heap: Global, entries: &[Entry]) -> Result<Vec<SendingCall>, AllocError> {
    let room = text_room().saturating_add(OVERHEAD);
    let mut orders = Vec::new(heap);
    for entry in entries {
        match &entry.step {
            Ok(Step::Write(kind, text)) => {
                let message = Message {
                    kind: *kind,
                    text: text.clone()?,
                };
                orders.push(processing(heap, message, room)?)?;
            }
            Ok(Step::Tell) => orders.push(telling(heap))?,
            _ => {}
        }
    }
    Ok(orders)
}

// The frame that the panel has written in a call, if it has.
pub(crate) fn written_frame(order: &SendingCall) -> Option<&[u8]> {
    match order.answer {
        Answer::Processed(Ok((size, _))) => order.buffer.as_slice().get(..size),
        _ => None,
    }
}

// The bytes that the head was handed in a call, if it was.
fn handed_bytes(call: &ReceivingCall) -> Option<&Vec<u8>> {
    match &call.request {
        Request::Process(bytes) => Some(bytes),
        Request::Tell => None,
    }
}

// Goes through a script, whose orders the panel has answered.
#[derive(Drop)]
pub struct Courier<'a> {
    heap: Global,
    // the orders that the script has not given yet
    orders: slice::Iter<'a, SendingCall>,
    // the frames written so far, and how many of them have left the panel
    frames: Vec<&'a [u8]>,
    left: usize,
    // the call by which the head was handed bytes last: a search for it would take as long as all calls
    handed: Option<usize>,
    calls: Vec<ReceivingCall>,
    notes: Vec<Note>,
}

impl<'a> Courier<'a> {
    pub(crate) fn new(heap: Global, orders: &'a [SendingCall]) -> Courier<'a> {
        Courier {
            heap,
            orders: orders.iter(),
            frames: Vec::new(heap),
            left: 0,
            handed: None,
            calls: Vec::new(heap),
            notes: Vec::new(heap),
        }
    }

    fn note(&mut self, line: usize, event: Event) -> Result<(), Trouble> {
        let outcome = Ok(event);
        self.notes.push(Note { line, outcome })?;
        Ok(())
    }

    // A copy of a written frame.
    fn frame(&self, frame: Figure) -> Result<Vec<u8>, Trouble> {
        let bytes = self.frames.get(frame.value);
        let bytes = bytes.ok_or(Fault::new(frame.column, Reason::NotWritten))?;
        Ok(bytes.to_vec(self.heap)?)
    }

    // Hands bytes to the head.
    fn offer(&mut self, line: usize, parcel: Parcel, bytes: Vec<u8>) -> Result<(), Trouble> {
        self.handed = Some(self.calls.len());
        self.calls.push(processing(self.heap, bytes, text_room())?)?;
        self.note(line, Event::Head(Some(parcel)))
    }

    fn hand(&mut self, line: usize, frame: Figure) -> Result<(), Trouble> {
        let bytes = self.frame(frame)?;
        self.offer(line, Parcel::Frame(frame.value), bytes)
    }

    fn flip(&mut self, line: usize, bit: Figure, frame: Figure) -> Result<(), Trouble> {
        let mut bytes = self.frame(frame)?;
        let byte = bytes.get_mut(bit.value / 8);
        let byte = byte.ok_or(Fault::new(bit.column, Reason::NoSuchBit))?;
        *byte ^= 1u8 << (bit.value % 8);
        self.offer(line, Parcel::Flipped(frame.value, bit.value), bytes)
    }

    fn repeat(&mut self, at: Place) -> Result<(), Trouble> {
        let last = self.handed.and_then(|call| self.calls.get(call));
        let bytes = last.and_then(handed_bytes);
        let bytes = bytes.ok_or(Fault::new(at.column, Reason::NothingHanded))?;
        let bytes = bytes.clone()?;
        self.offer(at.line, Parcel::Again, bytes)
    }

    fn swap(&mut self, at: Place) -> Result<(), Trouble> {
        let Place { line, column } = at;
        let first = self.left;
        let second = first.saturating_add(1);
        if second >= self.frames.len() {
            return Err(Fault::new(column, Reason::TwoFramesWanted).into());
        }
        for value in [second, first] {
            self.hand(line, Figure { value, column })?;
        }
        self.left = second.saturating_add(1);
        Ok(())
    }

    // The panel's next order, with its answer.
    fn order(&mut self, line: usize) -> Result<(), Trouble> {
        if let Some(frame) = self.orders.next().and_then(written_frame) {
            self.frames.push(frame)?;
        }
        self.note(line, Event::Panel)
    }

    fn tell(&mut self, line: usize) -> Result<(), Trouble> {
        self.order(line)?;
        self.calls.push(telling(self.heap))?;
        self.note(line, Event::Head(None))
    }

    // The written frame that leaves the panel next.
    fn next_frame(&self, column: usize) -> Result<Figure, Fault> {
        let value = self.left;
        if value < self.frames.len() {
            Ok(Figure { value, column })
        } else {
            Err(Fault::new(column, Reason::AllLeft))
        }
    }

    fn lose(&mut self, at: Place) -> Result<(), Trouble> {
        let frame = self.next_frame(at.column)?;
        self.left = frame.value.saturating_add(1);
        self.note(at.line, Event::Lost(frame.value))
    }

    fn hand_next(&mut self, at: Place) -> Result<(), Trouble> {
        let frame = self.next_frame(at.column)?;
        self.left = frame.value.saturating_add(1);
        self.hand(at.line, frame)
    }

    // Where it has no such bit, the frame stays.
    fn flip_next(&mut self, at: Place, bit: Figure) -> Result<(), Trouble> {
        let frame = self.next_frame(at.column)?;
        self.flip(at.line, bit, frame)?;
        self.left = frame.value.saturating_add(1);
        Ok(())
    }

    fn step(&mut self, at: Place, step: &Step) -> Result<(), Trouble> {
        match step {
            Step::Open(_) => self.note(at.line, Event::Opened),
            Step::Write(_, _) => self.order(at.line),
            Step::Hand(None) => self.hand_next(at),
            Step::Hand(Some(frame)) => self.hand(at.line, *frame),
            Step::Flip(bit, None) => self.flip_next(at, *bit),
            Step::Flip(bit, Some(frame)) => self.flip(at.line, *bit, *frame),
            Step::Lose => self.lose(at),
            Step::Repeat => self.repeat(at),
            Step::Swap => self.swap(at),
            Step::Bytes(bytes) => self.offer(at.line, Parcel::Given, bytes.clone()?),
            Step::Tell => self.tell(at.line),
        }
    }

    fn carry(&mut self, entry: &Entry) -> Result<(), AllocError> {
        let done = match &entry.step {
            Ok(step) => self.step(entry.place, step),
            Err(fault) => Err(Trouble::Line(*fault)),
        };
        match done {
            Ok(()) => {}
            Err(Trouble::Line(fault)) => self.notes.push(Note {
                line: entry.place.line,
                outcome: Err(fault),
            })?,
            Err(Trouble::Memory(error)) => return Err(error),
        }
        Ok(())
    }

    // Carries out all of a script, and gives the calls and the notes that this made.
    pub(crate) fn carry_all(
        mut self,
        entries: &[Entry],
    ) -> Result<(Vec<ReceivingCall>, Vec<Note>), AllocError> {
        for entry in entries {
            self.carry(entry)?;
        }
        let Courier { calls, notes, .. } = self;
        Ok((calls, notes))
    }
}
