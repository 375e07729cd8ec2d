// The link for firmware in C, on the postponed engine. Every slice's length is checked here, and no state is kept here.
#![tactic(auto)]

mod ends;
mod fault;
mod lists;
mod memory;
mod report;
mod sessions;
mod values;

pub use ends::{
    cowslip_receiver_begin, cowslip_receiver_take, cowslip_receiver_tell, cowslip_sender_begin,
    cowslip_sender_tell, cowslip_sender_write,
};
pub use fault::{CallFault, Told};
pub use lists::{cowslip_deck, cowslip_digest};
pub use report::Answer;
pub use sessions::{cowslip_session_begin, cowslip_session_open, cowslip_session_seal};
