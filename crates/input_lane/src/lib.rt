//! An input: what its source gives becomes arrivals, one a call.
//!
//! `Inlet::next` asks the source once at most, works off what it gave, and answers the next arrival: sessions that open and
//! close, the messages that come in them, and seconds that pass. The sessions stand in `session_table`, and each stream is
//! cut by a cutter of its own, which goes with its connection. No past is kept: contracts say of an input that it stands for
//! all that its source gave and all that it gave on, and each call keeps that.
#![tactic(auto)]

mod brought;
mod calls;
mod came;
mod close;
mod events;
mod hand;
mod inlet;
mod lane;
mod law;
mod links;
mod state;
mod stream;
mod tally;

pub use came::InletAnswer;
pub use inlet::Inlet;
pub use law::an_input_counts_its_events;
