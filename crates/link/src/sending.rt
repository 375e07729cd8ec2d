// The sending end.
ghost use Rattle.std.specs.Prelude.{◌≡◌, ◌+◌, ◌++◌, length};
ghost use Rattle.refusals.specs.Tables.{first_of, refused_by};
ghost use Rattle.session.specs.Calls.{session_bits};
ghost use Rattle.session.specs.Sessions.{ciphertext_of, tag_of, after_sealing};
ghost use Rattle.link.specs.Frames.{overhead};
ghost use Rattle.link.specs.Refusals.{told, write_table};
ghost use Rattle.link.specs.Calls.{stands, vetted, write_answer, write_standing, write_out};

use crate::ends::SendingEnd;
use crate::fault::LinkFault;
use crate::frame::{HEADER, Number, OVERHEAD, TAG, header};
use crate::kind::Kind;
use duplex::Engine;
use session::{Session, Tag};

impl<E: Engine> SendingEnd<E> {
    // Writes the frame of a text to the front of `out`, and answers its length and the number that it carries. The kind comes as a byte, since one that stands for no kind is refused by 3.
    #[tactic(auto, using(crate::proofs::Writings::readied, crate::proofs::Tellings::write_tells), unfolding(crate::specs::Sender::frame_of, crate::specs::Sender::next_of))]
    pub fn write(
        &mut self,
        kind: u8,
        text: &[u8],
        out: &mut [u8],
    ) -> Result<(usize, u32), LinkFault>
        ensures value { result ≡ write_answer (stands E.bits self.old) kind text.now (length out.old) }
        ensures tells { refused_by told result ≡ first_of (write_table (stands E.bits self.old) kind text.now (length out.old)) }
        ensures moved { stands E.bits self.new ≡ write_standing (stands E.bits self.old) kind text.now (length out.old) }
        ensures out { out.new ≡ write_out (stands E.bits self.old) kind text.now out.old }
    {
        let number = self.number;
        let known = check(number, kind, text, out.len())?;
        let length = text.len() + OVERHEAD;
        let ad = header(known, number);
        lay(&mut self.session, &ad, text, &mut out[..length]);
        self.number = number.next();
        Ok((length, number.value))
    }
}

// The checks before the sealing, in their order: the kind of the text, if it passes them.
#[tactic(auto, unfolding(crate::specs::Calls::vetted))]
fn check(number: Number, kind: u8, text: &[u8], room: usize) -> Result<Kind, LinkFault>
    ensures { result ≡ vetted number.value kind text.now room }
{
    if number.is_largest() {
        return Err(LinkFault::Spent);
    }
    let known = Kind::try_from(kind)?;
    if text.len() != known.text_len() {
        return Err(LinkFault::WrongLength { length: text.len() });
    }
    if room < known.text_len() + OVERHEAD {
        return Err(LinkFault::ShortBuffer { room });
    }
    Ok(known)
}

// Lays the header, the ciphertext and the tag into a buffer of just their length.
#[tactic(auto, unfolding(session::specs::Calls::seal_answer))]
fn lay<E: Engine>(session: &mut Session<E>, ad: &[u8; HEADER], text: &[u8], out: &mut [u8])
    requires { length out.old ≡ length text.now + overhead }
    ensures moved { session_bits E.bits session.new ≡ after_sealing (session_bits E.bits session.old) ad.now text.now }
    ensures out { out.new ≡ ad.now ++ (ciphertext_of (session_bits E.bits session.old) ad.now text.now ++ tag_of (session_bits E.bits session.old) ad.now text.now) }
{
    let (header, rest) = out.split_at_mut(HEADER);
    let (body, end) = rest.split_at_mut(text.len());
    let mut tag = Tag { bytes: [0; TAG] };
    header.copy_from_slice(ad);
    session.seal(ad, text, body, &mut tag).unwrap();
    end.copy_from_slice(&tag.bytes);
}
