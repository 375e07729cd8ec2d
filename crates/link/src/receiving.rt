// The receiving end.
ghost use Rattle.std.specs.Prelude.{◌≡◌, ◌≤◌, length};
ghost use Rattle.refusals.specs.Tables.{first_of, refused_by};
ghost use Rattle.link.specs.Frames.{overhead, header_in, ciphertext_in, tag_in};
ghost use Rattle.link.specs.Refusals.{told, take_table};
ghost use Rattle.link.specs.Calls.{stands, checked, take_answer, take_standing, take_text};

use crate::ends::ReceivingEnd;
use crate::fault::LinkFault;
use crate::frame::{HEADER, Number, TAG};
use crate::kind::Kind;
use duplex::Engine;
use session::Tag;

impl<E: Engine> ReceivingEnd<E> {
    // Takes a frame: its text stands at the front of `text`, and its kind is answered. The frame is opened on a copy of the session, so that a refusal leaves the end as it was.
    #[tactic(auto, using(crate::proofs::Takings::passes, crate::proofs::Tellings::take_tells), unfolding(crate::specs::Calls::take_answer))]
    pub fn take(&mut self, frame: &[u8], text: &mut [u8]) -> Result<Kind, LinkFault>
        ensures value { result ≡ take_answer (stands E.bits self.old) frame.now (length text.old) }
        ensures tells { refused_by told result ≡ first_of (take_table (stands E.bits self.old) frame.now (length text.old)) }
        ensures moved { stands E.bits self.new ≡ take_standing (stands E.bits self.old) frame.now result }
        ensures text { text.new ≡ take_text (stands E.bits self.old) frame.now text.old result }
    {
        let kind = check(self.number, frame, text.len())?;
        let (header, body, tag) = parts(frame);
        let mut trial = self.session.copy();
        trial.open(header, body, &tag, text)?;
        self.session = trial;
        self.number = self.number.next();
        Ok(kind)
    }
}

// The checks before the opening, in their order: the frame's kind, if it passes them.
#[tactic(auto, unfolding(crate::specs::Calls::checked))]
fn check(number: Number, frame: &[u8], room: usize) -> Result<Kind, LinkFault>
    ensures { result ≡ checked number.value frame.now room }
{
    if number.is_largest() {
        return Err(LinkFault::Spent);
    }
    let length = frame.len();
    let [first, ..] = frame else {
        return Err(LinkFault::Empty);
    };
    let kind = Kind::try_from(*first)?;
    let [_kind, n0, n1, n2, n3, rest @ ..] = frame else {
        return Err(LinkFault::WrongLength { length });
    };
    if rest.len() != kind.text_len() + TAG {
        return Err(LinkFault::WrongLength { length });
    }
    if room < kind.text_len() {
        return Err(LinkFault::ShortBuffer { room });
    }
    if [*n0, *n1, *n2, *n3] != number.value.to_le_bytes() {
        return Err(LinkFault::WrongNumber);
    }
    Ok(kind)
}

// The header, the ciphertext and the tag.
fn parts(frame: &[u8]) -> (&[u8], &[u8], Tag)
    requires { overhead ≤ length frame.now }
    ensures header { result.0.now ≡ header_in frame.now }
    ensures body { result.1.now ≡ ciphertext_in frame.now }
    ensures tag { result.2.bytes ≡ tag_in frame.now }
{
    let (header, sealed) = frame.split_at(HEADER);
    let (body, tag) = sealed.split_last_chunk().unwrap();
    (header, body, Tag { bytes: *tag })
}
