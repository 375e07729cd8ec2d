// Keyed states and sessions. The order of the calls is in the types: only what was given a nonce can seal and open.
ghost use Rattle.std.specs.Prelude.{◌≡◌, length};
ghost use Rattle.duplex.specs.Strings.{output, after_output};
ghost use Rattle.refusals.specs.Tables.{first_of, refused_by};
ghost use Rattle.session.specs.Refusals.{told, seal_table, open_table};
ghost use Rattle.session.specs.Sessions.{after_key, after_nonce, begun, ciphertext_of, tag_of, after_sealing, plaintext_of, opens, shown};
ghost use Rattle.session.specs.Calls.{keyed_bits, session_bits, seal_answer, seal_bits, seal_out, seal_tag, verdict, open_answer, open_bits, open_out, ReadsBack, OnlySealed};

use crate::fault::SessionFault;
use crate::guard::Guard;
use crate::values::{Key, Nonce, Tag};
use duplex::Engine;
use strings::{BLANKS, Duplex};

// A state that has absorbed a key and waits for a nonce.
#[derive(Drop)]
pub struct Keyed<E> {
    duplex: Duplex<E>,
}

impl<E: Engine> Keyed<E> {
    #[tactic(auto, unfolding(crate::specs::Sessions::after_key))]
    pub fn new(key: &Key) -> Keyed<E>
        ensures { keyed_bits E.bits result ≡ after_key key.now.bytes }
    {
        let mut duplex = Duplex::new();
        duplex.absorb(&key.bytes);
        Keyed { duplex }
    }

    // Begins a session, and gives up the keyed state.
    #[tactic(auto, unfolding(crate::specs::Sessions::after_nonce))]
    pub fn give_nonce(self, nonce: &Nonce) -> Session<E>
        ensures { session_bits E.bits result ≡ after_nonce (keyed_bits E.bits self) nonce.now.bytes }
    {
        let Keyed { mut duplex } = self;
        duplex.absorb(&nonce.bytes);
        duplex.blank(BLANKS);
        Session { duplex }
    }
}

#[derive(Drop)]
pub struct Session<E> {
    duplex: Duplex<E>,
}

impl<E: Engine> Session<E> {
    // The session of a key and a nonce.
    pub fn begin(key: &Key, nonce: &Nonce) -> Session<E>
        ensures { session_bits E.bits result ≡ begun key.now.bytes nonce.now.bytes }
    {
        Keyed::new(key).give_nonce(nonce)
    }

    // A second session at the same bits. Why it is neither `Clone` nor `Copy` stands at `Engine::copy` in crates/duplex.
    pub fn copy(&self) -> Session<E>
        ensures { session_bits E.bits result ≡ session_bits E.bits self.now }
    {
        Session {
            duplex: self.duplex.copy(),
        }
    }

    // Goes on with a session whose bits were kept elsewhere. Nothing here knows whether a nonce was given, or whether another session goes on from the same bits.
    pub unsafe fn resume(engine: E) -> Session<E>
        ensures { session_bits E.bits result ≡ E.bits engine }
    {
        Session {
            duplex: Duplex { engine },
        }
    }

    // Gives up the session, so that its bits can be kept elsewhere.
    pub fn suspend(self) -> E
        ensures { E.bits result ≡ session_bits E.bits self }
    {
        let Session { duplex } = self;
        let Duplex { engine } = duplex;
        engine
    }

    // Seals a text into the front of `out`, writes its tag, and answers its length.
    #[tactic(auto, unfolding(crate::specs::Calls::seal_answer, crate::specs::Refusals::seal_table))]
    pub fn seal(
        &mut self,
        ad: &[u8],
        text: &[u8],
        out: &mut [u8],
        tag: &mut Tag,
    ) -> Result<usize, SessionFault>
        ensures value { result ≡ seal_answer text.now (length out.old) }
        ensures tells { refused_by told result ≡ first_of (seal_table text.now (length out.old)) }
        ensures moved { session_bits E.bits self.new ≡ seal_bits (session_bits E.bits self.old) ad.now text.now result }
        ensures out { out.new ≡ seal_out (session_bits E.bits self.old) ad.now text.now out.old result }
        ensures tag { tag.new.bytes ≡ seal_tag (session_bits E.bits self.old) ad.now text.now tag.old.bytes result }
    {
        // `open` tests the room so too: a function for both would be no shorter, since each cuts for its own call.
        if out.len() < text.len() {
            return Err(SessionFault::Short { room: out.len() });
        }
        *tag = self.seal_whole(ad, text, &mut out[0..text.len()]);
        Ok(text.len())
    }

    // Opens a ciphertext into the front of `out`, and answers its length. If the tag differs, the bytes of the text stand at zero.
    #[tactic(auto, unfolding(crate::specs::Calls::open_answer, crate::specs::Refusals::open_table))]
    pub fn open(
        &mut self,
        ad: &[u8],
        ciphertext: &[u8],
        tag: &Tag,
        out: &mut [u8],
    ) -> Result<usize, SessionFault>
        ensures value { result ≡ open_answer (session_bits E.bits self.old) ad.now ciphertext.now tag.now.bytes (length out.old) }
        ensures tells { refused_by told result ≡ first_of (open_table (session_bits E.bits self.old) ad.now ciphertext.now tag.now.bytes (length out.old)) }
        ensures moved { session_bits E.bits self.new ≡ open_bits (session_bits E.bits self.old) ad.now ciphertext.now result }
        ensures out { out.new ≡ open_out (session_bits E.bits self.old) ad.now ciphertext.now out.old result }
        ensures back { ReadsBack (session_bits E.bits self.old) ad.now ciphertext.now tag.now.bytes out.old result (session_bits E.bits self.new) out.new }
        ensures only { OnlySealed (session_bits E.bits self.old) ad.now ciphertext.now tag.now.bytes result (session_bits E.bits self.new) out.new }
    {
        if out.len() < ciphertext.len() {
            return Err(SessionFault::Short { room: out.len() });
        }
        self.open_whole(ad, ciphertext, tag, &mut out[0..ciphertext.len()])
    }

    // Seals into a buffer of just the right length, and gives the tag.
    #[tactic(auto, unfolding(crate::specs::Sessions::ciphertext_of, crate::specs::Sessions::tag_of, crate::specs::Sessions::after_sealing))]
    fn seal_whole(&mut self, ad: &[u8], text: &[u8], out: &mut [u8]) -> Tag
        requires { length text.now ≡ length out.old }
        ensures value { result.bytes ≡ tag_of (session_bits E.bits self.old) ad.now text.now }
        ensures moved { session_bits E.bits self.new ≡ after_sealing (session_bits E.bits self.old) ad.now text.now }
        ensures out { out.new ≡ ciphertext_of (session_bits E.bits self.old) ad.now text.now }
    {
        out.copy_from_slice(text);
        self.duplex.absorb(ad);
        self.duplex.encrypt(out);
        self.squeeze_tag()
    }

    // Opens into a buffer of just the right length.
    #[tactic(auto, unfolding(crate::specs::Sessions::plaintext_of, crate::specs::Sessions::tag_of, crate::specs::Sessions::after_sealing, crate::specs::Sessions::opens))]
    fn open_whole(
        &mut self,
        ad: &[u8],
        ciphertext: &[u8],
        tag: &Tag,
        text: &mut [u8],
    ) -> Result<usize, SessionFault>
        requires { length ciphertext.now ≡ length text.old }
        ensures value { result ≡ verdict ciphertext.now (opens (session_bits E.bits self.old) ad.now ciphertext.now tag.now.bytes) }
        ensures moved { session_bits E.bits self.new ≡ after_sealing (session_bits E.bits self.old) ad.now (plaintext_of (session_bits E.bits self.old) ad.now ciphertext.now) }
        ensures text { text.new ≡ shown (opens (session_bits E.bits self.old) ad.now ciphertext.now tag.now.bytes) (plaintext_of (session_bits E.bits self.old) ad.now ciphertext.now) }
    {
        let mut guard = Guard {
            text,
            released: false,
        };
        guard.text.copy_from_slice(ciphertext);
        self.duplex.absorb(ad);
        self.duplex.decrypt(guard.text);
        let found = self.squeeze_tag();
        if !found.same(tag) {
            return Err(SessionFault::Tag {
                length: ciphertext.len(),
            });
        }
        guard.released = true;
        Ok(ciphertext.len())
    }

    // The tag of what has been absorbed.
    fn squeeze_tag(&mut self) -> Tag
        ensures value { result.bytes ≡ output (session_bits E.bits self.old) 16 }
        ensures moved { session_bits E.bits self.new ≡ after_output (session_bits E.bits self.old) 16 }
    {
        let mut bytes = [0; 16];
        self.duplex.blank(BLANKS);
        self.duplex.squeeze(&mut bytes);
        Tag { bytes }
    }
}
