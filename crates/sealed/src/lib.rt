// Sealed bytes, a ciphertext and its tag after it, and the hex words that a key, a nonce and associated data are written as.
#![tactic(auto)]

mod bytes;
mod fault;
mod words;

pub use bytes::{open, seal};
pub use fault::{HexFault, SealedFault, WordFault};
pub use words::{hex_bytes, sixteen_bytes};
