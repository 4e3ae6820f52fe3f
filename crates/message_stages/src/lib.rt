//! The intermediates of a description, applied once to each message for all outputs.
//!
//! `Stages` takes a message through all intermediates, set by set, and answers what is left of it. What each intermediate is
//! prepared to for a definition is kept by session, domain and Template ID. Where no intermediate changes records the message
//! that is left shares the octets of the one that came; else it has octets of its own, the copies of the records that are
//! left. So memory is asked for by message and by set, and not by record.
//!
//! Contracts see the intermediates as what they do, and what is left of a message as the item that the definitions leave of
//! its own (`IsBehind`). Items go through the intermediates one by one (`items_go_one_by_one`), so a run may hand each
//! message on as soon as it has passed.
#![tactic(auto)]

mod laws;
mod message;
mod prepare;
mod rooms;
mod set;
mod stages;

pub use laws::items_go_one_by_one;
pub use stages::Stages;
