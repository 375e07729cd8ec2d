// The link over any engine: kinds, frames, and the two ends. Nothing here allocates.
#![tactic(auto)]

mod ends;
mod fault;
mod figures;
mod frame;
mod kind;
mod receiving;
mod sending;

pub use ends::{End, Receiving, ReceivingEnd, Sending, SendingEnd};
pub use fault::LinkFault;
pub use figures::frame_figures;
pub use frame::{NUMBER_LIMIT, OVERHEAD};
pub use kind::{Kind, UnknownKind};
