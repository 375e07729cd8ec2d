// What is measured, over any engine.
ghost use Rattle.std.specs.Prelude.{◌≡◌, ◌+◌, ◌^◌, [], ◌∷◌, length, replicate};
ghost use Rattle.duplex.specs.State.{step, reading};
ghost use Rattle.duplex.specs.Strings.{squeezed, after_squeezing};
ghost use Rattle.digests.specs.Digests.{digest_of};
ghost use Rattle.session.specs.Calls.{session_bits, seal_answer, seal_bits, seal_out, seal_tag};
ghost use Rattle.link.specs.Calls.{stands, write_answer, write_standing, write_out};
ghost use Rattle.link.specs.Kinds.{kind_byte};
ghost use Rattle.load.specs.Turns.{sent, Took};

use crate::work::Work;
use digests::{Entry, digest};
use duplex::Engine;
use link::{Kind, OVERHEAD, ReceivingEnd, SendingEnd};
use session::{Session, Tag};
use std::marker::PhantomData;
use strings::Duplex;

// The bytes of the longest frame, of a text of 32.
const LONGEST: usize = 32 + OVERHEAD;

// A step with the last reading as a full block, and a reading.
#[derive(Drop)]
pub(crate) struct Stepping<E> {
    pub(crate) engine: E,
    pub(crate) word: u32,
}

impl<E: Engine> Work for Stepping<E> {
    ghost turned = { λ text a b. (E.Engine.bits b.0.engine ≡ step (E.Engine.bits a.0.engine) (2 ^ 32 + a.0.word)) × (b.0.word ≡ reading (E.Engine.bits b.0.engine)) × (b.1 ≡ a.1) };

    fn turn(&mut self, text: &[u8], out: &mut [u8]) {
        self.engine.step(0x1_0000_0000 + u64::from(self.word));
        self.word = self.engine.read();
    }
}

// The digest of the text as one string.
#[derive(Drop)]
pub(crate) struct Digesting<E> {
    pub(crate) engine: PhantomData<E>,
}

impl<E: Engine> Work for Digesting<E> {
    ghost turned = { λ text a b. b.1 ≡ digest_of (text ∷ []) (length a.1) };

    fn turn(&mut self, text: &[u8], out: &mut [u8]) {
        let whole = Entry {
            start: 0,
            length: text.len(),
        };
        let _ = digest::<E>(text, &[whole], out);
    }
}

// A buffer full of squeezed bytes.
#[derive(Drop)]
pub(crate) struct Squeezing<E> {
    pub(crate) duplex: Duplex<E>,
}

impl<E: Engine> Work for Squeezing<E> {
    ghost turned = { λ text a b. (b.1 ≡ squeezed (E.Engine.bits a.0.duplex.engine) (length a.1)) × (E.Engine.bits b.0.duplex.engine ≡ after_squeezing (E.Engine.bits a.0.duplex.engine) (length a.1)) };

    fn turn(&mut self, text: &[u8], out: &mut [u8]) {
        self.duplex.squeeze(out);
    }
}

// The text sealed with no associated data.
#[derive(Drop)]
pub(crate) struct Sealing<E> {
    pub(crate) session: Session<E>,
    pub(crate) tag: Tag,
}

impl<E: Engine> Work for Sealing<E> {
    ghost turned = { λ text a b. (session_bits E.Engine.bits b.0.session ≡ seal_bits (session_bits E.Engine.bits a.0.session) [] text (seal_answer text (length a.1))) × (b.1 ≡ seal_out (session_bits E.Engine.bits a.0.session) [] text a.1 (seal_answer text (length a.1))) × (b.0.tag.bytes ≡ seal_tag (session_bits E.Engine.bits a.0.session) [] text a.0.tag.bytes (seal_answer text (length a.1))) };

    fn turn(&mut self, text: &[u8], out: &mut [u8]) {
        let _ = self.session.seal(&[], text, out, &mut self.tag);
    }
}

// The frame of the text.
#[derive(Drop)]
pub(crate) struct Writing<E> {
    pub(crate) panel: SendingEnd<E>,
    pub(crate) kind: Kind,
}

impl<E: Engine> Work for Writing<E> {
    ghost turned = { λ text a b. (stands E.Engine.bits b.0.panel ≡ write_standing (stands E.Engine.bits a.0.panel) (kind_byte a.0.kind) text (length a.1)) × (b.0.kind ≡ a.0.kind) × (b.1 ≡ write_out (stands E.Engine.bits a.0.panel) (kind_byte a.0.kind) text a.1) };

    fn turn(&mut self, text: &[u8], out: &mut [u8]) {
        let _ = self.panel.write(self.kind.into(), text, out);
    }
}

// The frame of the text, and the text that the other end takes from it.
#[derive(Drop)]
pub(crate) struct Passing<E> {
    pub(crate) panel: SendingEnd<E>,
    pub(crate) head: ReceivingEnd<E>,
    pub(crate) kind: Kind,
}

impl<E: Engine> Work for Passing<E> {
    ghost turned = { λ text a b. (stands E.Engine.bits b.0.panel ≡ write_standing (stands E.Engine.bits a.0.panel) (kind_byte a.0.kind) text 53) × (b.0.kind ≡ a.0.kind) × Took (stands E.Engine.bits a.0.head) (sent (write_answer (stands E.Engine.bits a.0.panel) (kind_byte a.0.kind) text 53) (write_out (stands E.Engine.bits a.0.panel) (kind_byte a.0.kind) text (replicate 53 0))) a.1 (stands E.Engine.bits b.0.head) b.1 };

    fn turn(&mut self, text: &[u8], out: &mut [u8]) {
        let mut frame = [0; LONGEST];
        if let Ok((length, _number)) = self.panel.write(self.kind.into(), text, &mut frame) {
            let _ = self.head.take(&frame[0..length], out);
        }
    }
}
