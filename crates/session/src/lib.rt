// Authenticated sessions over any engine. Nothing here allocates.
#![tactic(auto)]

mod fault;
mod figures;
mod guard;
mod sealing;
mod values;

pub use fault::SessionFault;
pub use figures::session_figures;
pub use sealing::{Keyed, Session};
pub use values::{Key, Nonce, Tag};
