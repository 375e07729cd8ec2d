// The string operations of the suite, written once over any engine.
#![tactic(auto)]

ghost use Rattle.std.specs.Prelude.{◌≡◌, ◌≤◌, [], length};
ghost use Rattle.duplex.specs.State.{zeros, step, reading};
ghost use Rattle.duplex.specs.Strings.{padded, blocks, absorbed, absorbed_unkeyed, appended, keystream_added, encrypted, decrypted, after_decrypting, UndoesEncrypting, blanked, word_bytes, squeezed, after_squeezing};
ghost use Rattle.strings.specs.Crypt.{after, sums, ends};

mod block;
mod cipher;

use block::Block;
use cipher::{Cipher, Decrypt, Encrypt};
use duplex::Engine;

// The empty steps that follow a nonce, and precede a tag or the bytes of a digest.
pub const BLANKS: usize = 8;

// A duplex object: an engine, and the string operations on it.
#[derive(Drop)]
pub struct Duplex<E> {
    pub engine: E,
}

impl<E: Engine> Duplex<E> {
    // All bits zero.
    pub fn new() -> Duplex<E>
        ensures { E.bits result.engine ≡ zeros }
    {
        Duplex { engine: E::new() }
    }

    // A second object that means the same bits: a method for the reason at `Engine::copy`.
    pub fn copy(&self) -> Duplex<E>
        ensures { E.bits result.engine ≡ E.bits self.now.engine }
    {
        Duplex {
            engine: self.engine.copy(),
        }
    }

    // Absorbs a keyed string: four bytes a step, and a last step with the 0 to 3 bytes that are left.
    #[tactic(auto, using(crate::proofs::Blocks::absorbed_cut, crate::proofs::Blocks::steps_done, std::proofs::lemmas::List::take_all))]
    pub fn absorb(&mut self, text: &[u8])
        ensures { E.bits self.new.engine ≡ absorbed (E.bits self.old.engine) text.now }
    {
        let (blocks, rest) = text.as_chunks::<4>();
        for block in blocks {
            self.step(Block { bytes: block });
        }
        self.step(Block { bytes: rest });
    }

    // Absorbs an unkeyed string: its bytes, and a last step with none, which an empty one follows.
    pub fn absorb_unkeyed(&mut self, text: &[u8])
        ensures { E.bits self.new.engine ≡ absorbed_unkeyed (E.bits self.old.engine) text.now }
    {
        self.append_unkeyed(text);
        self.blank(2);
    }

    // Absorbs the next bytes of an unkeyed string that goes on: a byte a step, each followed by an empty one.
    #[tactic(auto, using(crate::proofs::Readings::appended_next, crate::proofs::Readings::appended_done, crate::proofs::Readings::blanked_once))]
    pub fn append_unkeyed(&mut self, bytes: &[u8])
        ensures { E.bits self.new.engine ≡ appended (E.bits self.old.engine) bytes.now }
    {
        for byte in bytes {
            self.step(Block { bytes: &[*byte] });
            self.blank(1);
        }
    }

    // Encrypts in place.
    pub fn encrypt(&mut self, text: &mut [u8])
        ensures text { text.new ≡ encrypted (E.bits self.old.engine) text.old }
        ensures moved { E.bits self.new.engine ≡ absorbed (E.bits self.old.engine) text.old }
    {
        self.crypt::<Encrypt>(text);
    }

    // Decrypts in place. From the state that encrypted a text, this gives the text back, and both sides then mean the same bits.
    pub fn decrypt(&mut self, text: &mut [u8])
        ensures text { text.new ≡ decrypted (E.bits self.old.engine) text.old }
        ensures moved { E.bits self.new.engine ≡ after_decrypting (E.bits self.old.engine) text.old }
        ensures undoes { UndoesEncrypting (E.bits self.old.engine) text.old text.new (E.bits self.new.engine) }
    {
        self.crypt::<Decrypt>(text);
    }

    // Steps with the empty block.
    pub fn blank(&mut self, times: usize)
        ensures { E.bits self.new.engine ≡ blanked (E.bits self.old.engine) times }
    {
        for _ in 0..times {
            self.step(Block { bytes: &[] });
        }
    }

    // Fills `out` with readings, each followed by an empty step; bytes over are dropped. It goes by places: nothing is known of what a slice ends as that `chunks_mut` lends.
    pub fn squeeze(&mut self, out: &mut [u8])
        ensures out { out.new ≡ squeezed (E.bits self.old.engine) (length out.old) }
        ensures moved { E.bits self.new.engine ≡ after_squeezing (E.bits self.old.engine) (length out.old) }
    {
        for i in (0..out.len()).step_by(4) {
            let word = self.squeeze_word();
            let end = usize::min(i + 4, out.len());
            out[i..end].copy_from_slice(&word[..end - i]);
        }
    }

    // A step with a block.
    fn step(&mut self, block: Block)
        ensures { E.bits self.new.engine ≡ step (E.bits self.old.engine) (padded block.entry.bytes.now) }
    {
        self.engine.step(block.number());
    }

    // A reading as four bytes, and an empty step after it.
    fn squeeze_word(&mut self) -> [u8; 4]
        ensures value { result ≡ word_bytes (reading (E.bits self.old.engine)) }
        ensures moved { E.bits self.new.engine ≡ step (E.bits self.old.engine) (padded []) }
    {
        let word = self.engine.read();
        self.step(Block { bytes: &[] });
        word.to_le_bytes()
    }

    // Encrypts or decrypts in place. It goes by places, as `squeeze` does. It stays a call of its own, since inlined it would add its words to the stack of whoever seals.
    #[inline(never)]
    fn crypt<C: Cipher>(&mut self, text: &mut [u8])
        ensures text { text.new ≡ sums C.rule (E.bits self.old.engine) (blocks text.old) }
        ensures moved { E.bits self.new.engine ≡ ends C.rule (E.bits self.old.engine) (blocks text.old) }
    {
        let whole = text.len() / 4;
        for k in 0..whole {
            self.crypt_block::<C>(&mut text[4 * k..4 * k + 4]);
        }
        self.crypt_block::<C>(&mut text[4 * whole..]);
    }

    // Adds the reading to a block of at most four bytes, and steps with the text block.
    fn crypt_block<C: Cipher>(&mut self, block: &mut [u8])
        requires { length block.old ≤ 4 }
        ensures block { block.new ≡ keystream_added (reading (E.bits self.old.engine)) block.old }
        ensures moved { E.bits self.new.engine ≡ after C.rule (E.bits self.old.engine) block.old }
    {
        let given = Block { bytes: block }.number();
        let word = self.engine.read().to_le_bytes();
        // Of what an `iter_mut` that is zipped leaves, nothing is known.
        for (k, byte) in block.iter_mut().enumerate() {
            *byte ^= word[k];
        }
        let sum = Block { bytes: block }.number();
        self.engine.step(C::text(given, sum));
    }
}
