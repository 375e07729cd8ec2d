// Why the program refuses.
ghost use Rattle.std.specs.Prelude.{◌≡◌};
ghost use Rattle.seal.specs.declared.fault.Fault.TheVariants.{Sealed as Inner, Memory};

use sealed::{HexFault, SealedFault};
use std::alloc::AllocError;
use std::{fmt, io};

// What a fault is about: a word of the command line, or what is printed.
#[derive(Clone, Copy)]
pub enum Subject {
    Key,
    Nonce,
    Ad,
    In,
    Out,
    Print,
}

impl fmt::Display for Subject {
    fn fmt<W: fmt::Write>(&self, f: &mut fmt::Formatter<W>) -> fmt::Result {
        f.write_str(match *self {
            Subject::Key => "KEY",
            Subject::Nonce => "NONCE",
            Subject::Ad => "AD",
            Subject::In => "IN",
            Subject::Out => "OUT",
            Subject::Print => "standard output",
        })
    }
}

#[derive(Drop)]
pub enum Fault {
    // not the words that --help lists
    Usage,
    Hex { subject: Subject, fault: HexFault },
    Sealed(SealedFault),
    File { subject: Subject, error: io::Error },
    Memory,
}

impl From<SealedFault> for Fault {
    ghost from_gives = { λ inner r. r ≡ Inner inner };

    fn from(inner: SealedFault) -> Fault {
        Fault::Sealed(inner)
    }
}

impl From<AllocError> for Fault {
    ghost from_gives = { λ _ r. r ≡ Memory };

    fn from(_: AllocError) -> Fault {
        Fault::Memory
    }
}

impl fmt::Display for Fault {
    fn fmt<W: fmt::Write>(&self, f: &mut fmt::Formatter<W>) -> fmt::Result {
        match self {
            Fault::Usage => f.write_str("wrong arguments; try seal --help"),
            Fault::Hex { subject, fault } => write!(f, "{subject}: {fault}"),
            Fault::Sealed(fault) => {
                if let SealedFault::Tagless { length: _ } = *fault {
                    write!(f, "{}: ", Subject::In)?;
                }
                write!(f, "{fault}")
            }
            Fault::File { subject, error } => write!(f, "{subject}: {error}"),
            Fault::Memory => f.write_str("out of memory"),
        }
    }
}
