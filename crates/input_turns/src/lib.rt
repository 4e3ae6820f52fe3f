//! All inputs of a run, asked in turn.
//!
//! `ask_all` asks the inputs until all have ended, and hands each message on with the number of its input before it asks
//! again. An input that answers is asked again, up to 1,000 times, before the next one; one whose source has nothing ready
//! is passed over until all others had their turn. Where a whole round brought nothing, the run pauses. What becomes of a
//! message is for its taker to say, and nothing that it meets ends an input. The run of a description stands above.
#![tactic(auto)]

mod turns;

pub use turns::ask_all;
