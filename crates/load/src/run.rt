// Which work is done, and on what.
ghost use Rattle.std.specs.Prelude.{◌≡◌};
ghost use Rattle.duplex.specs.State.{zeros};
ghost use Rattle.load.specs.Chains.{chained};

use crate::work::{Work, repeat};
use crate::works::{Digesting, Passing, Sealing, Squeezing, Stepping, Writing};
use anyhow::ensure;
use duplex::Engine;
use link::{Kind, NUMBER_LIMIT, OVERHEAD, ReceivingEnd, SendingEnd};
use session::{Key, Nonce, Session, Tag};
use std::alloc::Global;
use std::marker::PhantomData;
use strings::Duplex;

#[derive(Clone, Copy)]
pub(crate) enum Task {
    Step,
    Digest(usize),
    Squeeze(usize),
    Seal(usize),
    Write(Kind),
    Take(Kind),
}

const NO_NUMBER: &str = "an end has numbers for 1,000,000 frames";

const KEY: Key = Key { bytes: [1; 16] };

const NONCE: Nonce = Nonce { bytes: [2; 16] };

// Where buffers are made, and how often work is done.
#[derive(Clone, Copy)]
pub(crate) struct Load {
    pub(crate) heap: Global,
    pub(crate) count: u32,
}

// So many steps from zero, each with the reading of the one before as a full block: the last reading.
fn chain<E: Engine>(count: u32) -> u32
    ensures { result ≡ chained zeros 0 count }
{
    let mut work = Stepping {
        engine: E::new(),
        word: 0,
    };
    repeat(&mut work, &[], &mut [], count);
    work.word
}

impl Load {
    // Does work on a text of so many bytes and a buffer of so many, and gives the buffer.
    fn done<W: Work>(self, work: &mut W, text: usize, room: usize) -> anyhow::Result<Vec<u8>> {
        let text = vec![in self.heap; 0x5a; text]?;
        let mut out = vec![in self.heap; 0; room]?;
        repeat(work, text.as_slice(), out.as_mut_slice(), self.count);
        Ok(out)
    }

    fn step<E: Engine>(self) -> anyhow::Result<Vec<u8>> {
        Ok(chain::<E>(self.count).to_le_bytes().to_vec(self.heap)?)
    }

    fn digest<E: Engine>(self, size: usize) -> anyhow::Result<Vec<u8>> {
        let mut work = Digesting {
            engine: PhantomData::<E>,
        };
        self.done(&mut work, size, 32)
    }

    fn squeeze<E: Engine>(self, size: usize) -> anyhow::Result<Vec<u8>> {
        let mut work = Squeezing {
            duplex: Duplex::<E>::new(),
        };
        self.done(&mut work, 0, size)
    }

    fn seal<E: Engine>(self, size: usize) -> anyhow::Result<Vec<u8>> {
        let mut work = Sealing {
            session: Session::<E>::begin(&KEY, &NONCE),
            tag: Tag { bytes: [0; 16] },
        };
        self.done(&mut work, size, size)
    }

    fn write<E: Engine>(self, kind: Kind) -> anyhow::Result<Vec<u8>> {
        ensure!(self.count <= NUMBER_LIMIT, NO_NUMBER);
        let mut work = Writing {
            panel: SendingEnd::<E>::begin(&KEY, &NONCE),
            kind,
        };
        let out = self.done(&mut work, kind.text_len(), kind.text_len() + OVERHEAD)?;
        ensure!(work.panel.close() == self.count, "a frame was not written");
        Ok(out)
    }

    fn take<E: Engine>(self, kind: Kind) -> anyhow::Result<Vec<u8>> {
        ensure!(self.count <= NUMBER_LIMIT, NO_NUMBER);
        let mut work = Passing {
            panel: SendingEnd::<E>::begin(&KEY, &NONCE),
            head: ReceivingEnd::<E>::begin(&KEY, &NONCE),
            kind,
        };
        let out = self.done(&mut work, kind.text_len(), kind.text_len())?;
        ensure!(work.head.close() == self.count, "a frame was not taken");
        Ok(out)
    }

    // Does a task, and gives what came of it last.
    pub(crate) fn perform<E: Engine>(self, task: Task) -> anyhow::Result<Vec<u8>> {
        match task {
            Task::Step => self.step::<E>(),
            Task::Digest(size) => self.digest::<E>(size),
            Task::Squeeze(size) => self.squeeze::<E>(size),
            Task::Seal(size) => self.seal::<E>(size),
            Task::Write(kind) => self.write::<E>(kind),
            Task::Take(kind) => self.take::<E>(kind),
        }
    }
}
