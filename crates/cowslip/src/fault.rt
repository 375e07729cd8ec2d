// Why a call from C is refused.
ghost use Rattle.std.specs.Prelude.{◌≡◌};
ghost use Rattle.cowslip.specs.declared.fault.CallFault.TheVariants.{Session as InSession, Link as InLink, Entries as InEntries};
ghost use Rattle.cowslip.specs.Refusals.{told, without_layer};

use digests::EntryFault;
use link::LinkFault;
use refusals::Refusal;
use session::SessionFault;

#[derive(Clone, Copy, Debug, PartialEq, Eq)]
pub enum CallFault {
    // a slice of fixed length has another length; which argument it is, from 0
    ArgumentLength { argument: usize },
    // the memory holds no state of this sort
    NoState,
    Session(SessionFault),
    Link(LinkFault),
    Entries(EntryFault),
}

impl From<SessionFault> for CallFault {
    ghost from_gives = { λ fault r. r ≡ InSession fault };

    fn from(fault: SessionFault) -> CallFault {
        CallFault::Session(fault)
    }
}

impl From<LinkFault> for CallFault {
    ghost from_gives = { λ fault r. r ≡ InLink fault };

    fn from(fault: LinkFault) -> CallFault {
        CallFault::Link(fault)
    }
}

impl From<EntryFault> for CallFault {
    ghost from_gives = { λ fault r. r ≡ InEntries fault };

    fn from(fault: EntryFault) -> CallFault {
        CallFault::Entries(fault)
    }
}

// What C is told of a refusal: the number that a call returns, and a place. C takes numbers; the fault is the enum above.
#[derive(Clone, Copy, Debug, PartialEq, Eq)]
pub struct Told {
    pub number: u8,
    pub place: usize,
}

// A refusal of another layer, without its layer.
impl From<Refusal> for Told {
    ghost from_gives = { λ refusal r. r ≡ without_layer refusal };

    fn from(refusal: Refusal) -> Told {
        Told {
            number: refusal.number,
            place: refusal.place,
        }
    }
}

// The refusal's number and place.
impl From<CallFault> for Told {
    ghost from_gives = { λ fault r. r ≡ told fault };

    fn from(fault: CallFault) -> Told {
        match fault {
            CallFault::ArgumentLength { argument } => Told {
                number: 30,
                place: argument,
            },
            CallFault::NoState => Told {
                number: 31,
                place: 0,
            },
            CallFault::Session(fault) => Told::from(Refusal::from(fault)),
            CallFault::Link(fault) => Told::from(Refusal::from(fault)),
            CallFault::Entries(fault) => Told::from(Refusal::from(fault)),
        }
    }
}
