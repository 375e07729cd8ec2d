// Digests and the deck function over any engine. Nothing is allocated.
#![tactic(auto)]

mod entries;
mod feeding;
mod figures;
mod lists;
mod pieces;

pub use entries::{Entry, EntryFault, first_outside};
pub use feeding::{Feeding, Squeezing};
pub use figures::digest_figures;
pub use lists::{deck, digest};
pub use pieces::{FeedCall, digest_fed};
