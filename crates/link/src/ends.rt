// Sending and receiving ends: what both do.
ghost use Rattle.std.specs.Prelude.{◌≡◌};
ghost use Rattle.std.specs.Option.{option_map};
ghost use Rattle.session.specs.Calls.{session_bits};
ghost use Rattle.link.specs.Frames.{standing_of, started};
ghost use Rattle.link.specs.Calls.{stands, resumed};

use crate::frame::{NUMBER_LIMIT, Number};
use duplex::Engine;
use session::{Key, Nonce, Session};
use std::marker::PhantomData;

// The directions of an end.
pub struct Sending;

pub struct Receiving;

pub type SendingEnd<E> = End<E, Sending>;

pub type ReceivingEnd<E> = End<E, Receiving>;

// Not to be copied: two sending ends at one place would seal two texts alike, and two receiving ends would each take the same frame.
#[derive(Drop)]
pub struct End<E, D> {
    pub(crate) session: Session<E>,
    pub(crate) number: Number,
    direction: PhantomData<D>,
}

impl<E: Engine, D> End<E, D> {
    // Key and nonce are two arguments, since a key outlives a nonce.
    #[tactic(auto, unfolding(crate::specs::Frames::started))]
    pub fn begin(key: &Key, nonce: &Nonce) -> End<E, D>
        ensures { stands E.bits result ≡ started key.now.bytes nonce.now.bytes }
    {
        End {
            session: Session::begin(key, nonce),
            number: Number { value: 0 },
            direction: PhantomData,
        }
    }

    // How many frames were written or taken.
    pub fn tell(&self) -> u32
        ensures { result ≡ (stands E.bits self.now).number }
    {
        self.number.value
    }

    // Gives up the end, and tells its number.
    pub fn close(self) -> u32
        ensures { result ≡ (stands E.bits self).number }
    {
        self.tell()
    }

    // Goes on with an end whose session and number were kept elsewhere, unless the number is too large. Nothing here knows whether another end goes on from the same place.
    pub unsafe fn resume(session: Session<E>, number: u32) -> Option<End<E, D>>
        ensures { option_map (stands E.bits) result ≡ resumed (session_bits E.bits session) number }
    {
        if number > NUMBER_LIMIT {
            return None;
        }
        Some(End {
            session,
            number: Number { value: number },
            direction: PhantomData,
        })
    }

    // Gives up the end, so that its session and number can be kept elsewhere.
    pub fn suspend(self) -> (Session<E>, u32)
        ensures { standing_of (session_bits E.bits result.0) result.1 ≡ stands E.bits self }
    {
        let End {
            session,
            number,
            ..
        } = self;
        (session, number.value)
    }
}
