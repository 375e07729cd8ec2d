// What is printed of a rehearsal.
use crate::courier::{Event, Parcel};
use crate::fault::Fault;
use crate::million::Tally;
use crate::script::Entry;
use crate::stage::Rehearsed;
use digits::Hex;
use link::{Kind, LinkFault};
use refusals::Refusal;
use rehearsal::{Answer, ReceivingCall, SendingCall};
use std::io::{BufWriter, Write};
use std::rt::Stdout;
use std::{fmt, io, slice};
use wording::kind_name;

// A refusal with its number, layer and place, and why.
#[derive(Clone, Copy)]
struct Refused(LinkFault);

impl fmt::Display for Refused {
    fn fmt<W: fmt::Write>(&self, f: &mut fmt::Formatter<W>) -> fmt::Result {
        let why = self.0;
        let refusal = Refusal::from(why);
        write!(f, "{refusal} ({why})")
    }
}

// The first bytes of a buffer.
fn front(buffer: &[u8], count: usize) -> Hex<'_> {
    Hex(&buffer[..count.min(buffer.len())])
}

// A kind, and its text at the front of a buffer.
#[derive(Clone, Copy)]
struct Text<'a>(Kind, &'a [u8]);

impl<'a> fmt::Display for Text<'a> {
    fn fmt<W: fmt::Write>(&self, f: &mut fmt::Formatter<W>) -> fmt::Result {
        let Text(kind, buffer) = *self;
        f.write_str(kind_name(kind))?;
        match kind.text_len() {
            0 => Ok(()),
            count => write!(f, " {}", front(buffer, count)),
        }
    }
}

// What the panel answered.
#[derive(Clone, Copy)]
struct Panel<'a>(&'a SendingCall);

impl<'a> fmt::Display for Panel<'a> {
    fn fmt<W: fmt::Write>(&self, f: &mut fmt::Formatter<W>) -> fmt::Result {
        match self.0.answer {
            Answer::Processed(Ok((size, number))) => {
                let frame = front(self.0.buffer.as_slice(), size);
                write!(f, "panel wrote frame {number}, {size} bytes: {frame}")
            }
            Answer::Processed(Err(fault)) => write!(
                f,
                "panel refused to write: {}",
                Refused(fault)
            ),
            Answer::Told(number) => write!(f, "panel tells {number}"),
        }
    }
}

// What the head was handed, if anything.
#[derive(Clone, Copy)]
struct Handed(Option<Parcel>);

impl fmt::Display for Handed {
    fn fmt<W: fmt::Write>(&self, f: &mut fmt::Formatter<W>) -> fmt::Result {
        match self.0 {
            Some(parcel) => write!(f, "{parcel}"),
            None => write!(f, "nothing"),
        }
    }
}

// What the head answered.
#[derive(Clone, Copy)]
struct Head<'a>(Handed, &'a ReceivingCall);

impl<'a> fmt::Display for Head<'a> {
    fn fmt<W: fmt::Write>(&self, f: &mut fmt::Formatter<W>) -> fmt::Result {
        let Head(handed, call) = self;
        match call.answer {
            Answer::Processed(Ok(kind)) => {
                let text = Text(kind, call.buffer.as_slice());
                write!(f, "head took {handed}: {text}")
            }
            Answer::Processed(Err(fault)) => write!(f, "head refused {handed}: {}", Refused(fault)),
            Answer::Told(number) => write!(f, "head tells {number}"),
        }
    }
}

impl fmt::Display for Tally {
    fn fmt<W: fmt::Write>(&self, f: &mut fmt::Formatter<W>) -> fmt::Result {
        let Tally {
            passed,
            panel,
            head,
            unwritten,
            untaken,
        } = *self;
        write!(
            f,
            "{passed} heartbeats were written and taken; panel is at {panel}, head at {head}"
        )?;
        if let Some(fault) = unwritten {
            write!(f, "\npanel refused to write one more: {}", Refused(fault))?;
        }
        if let Some(fault) = untaken {
            write!(f, "\nhead refused to take one more: {}", Refused(fault))?;
        }
        Ok(())
    }
}

// Both numbers, and whether both ends stand together.
#[derive(Clone, Copy)]
struct Closing<'a>(&'a Rehearsed);

impl<'a> fmt::Display for Closing<'a> {
    fn fmt<W: fmt::Write>(&self, f: &mut fmt::Formatter<W>) -> fmt::Result {
        let all = self.0;
        let (panel, head) = all.numbers();
        let ends = if all.took_all() {
            "they stand together"
        } else if panel == head {
            "they stand apart, as head took other frames than panel wrote"
        } else {
            "they stand apart"
        };
        let second = if all.second_agrees() {
            "agrees with head"
        } else {
            "DIFFERS from head"
        };
        write!(
            f,
            "panel is at {panel}, head at {head}: {ends}; the second end {second}"
        )
    }
}

// Standard output, and standard error after what stands before it. The program `digest` has such a struct too: no clause could speak of what a shared one has written.
#[derive(Drop)]
pub struct Screen<'a> {
    rt: &'a HostRuntime,
    out: BufWriter<Stdout>,
}

impl<'a> Screen<'a> {
    pub(crate) fn new(rt: &'a HostRuntime) -> io::Result<Screen<'a>> {
        let out = BufWriter::new(rt.alloc(), rt.stdout())?;
        Ok(Screen { rt, out })
    }

    pub(crate) fn flush(&mut self) -> io::Result<()> {
        self.out.flush()
    }

    pub(crate) fn print<D: fmt::Display>(&mut self, text: &D) -> io::Result<()> {
        writeln!(self.out, "{text}")
    }

    // Says why a line is not carried out.
    fn complain(&mut self, line: usize, fault: Fault) -> io::Result<()> {
        let Fault { column, reason } = fault;
        self.flush()?;
        eprintln!(self.rt; "rehearse: line {line}, column {column}: {reason}")
    }

    // Prints what happened at a line; its call is the next one of its list.
    fn print_event(
        &mut self,
        line: usize,
        event: Event,
        orders: &mut slice::Iter<'_, SendingCall>,
        calls: &mut slice::Iter<'_, ReceivingCall>,
    ) -> io::Result<()> {
        match event {
            Event::Opened => writeln!(self.out, "{line}: panel, head and second end are open")?,
            Event::Lost(frame) => writeln!(self.out, "{line}: frame {frame} is lost")?,
            Event::Panel => {
                if let Some(order) = orders.next() {
                    writeln!(self.out, "{line}: {}", Panel(order))?;
                }
            }
            Event::Head(parcel) => {
                if let Some(call) = calls.next() {
                    writeln!(self.out, "{line}: {}", Head(Handed(parcel), call))?;
                }
            }
        }
        Ok(())
    }

    // Prints a rehearsal, and answers whether every line was carried out.
    pub(crate) fn print_rehearsal(&mut self, all: &Rehearsed) -> io::Result<bool> {
        let mut good = true;
        let mut orders = all.orders.iter();
        let mut calls = all.calls.iter();
        for note in &all.notes {
            let line = note.line;
            match note.outcome {
                Ok(event) => self.print_event(line, event, &mut orders, &mut calls)?,
                Err(fault) => {
                    self.complain(line, fault)?;
                    good = false;
                }
            }
        }
        self.print(&Closing(all))?;
        Ok(good)
    }

    // Prints why no line was carried out.
    pub(crate) fn print_faults(&mut self, entries: &[Entry]) -> io::Result<()> {
        for entry in entries {
            if let Err(fault) = entry.step {
                self.complain(entry.place.line, fault)?;
            }
        }
        Ok(())
    }
}
