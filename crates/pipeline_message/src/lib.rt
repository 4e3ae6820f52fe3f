//! What the stages of a run tell one another and the run itself: messages, counts, and how a stage broke.
//!
//! Contracts see a message as the item that it stands for (`item_of`): the records of a decoded set are what stands at
//! their places in the octets of the message. They see counts as those of `count_spec`, each at 2^64 - 1 at most
//! (`shown_counts`).
#![tactic(auto)]

mod lane_fault;
mod message;
mod place;
mod run_counts;

pub use lane_fault::LaneFault;
pub use message::{DataMessage, DataSet, Msg, Place, SessionNote};
pub use place::octets_at;
pub use run_counts::RunCounts;
