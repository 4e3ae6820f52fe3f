//! The messages of one input: its arrivals, one a call, each worked off by the input's parser.
//!
//! `Input::next` asks the source once at most, and answers the message of the next arrival. An input ends with its source,
//! with a fault of it, after as many events as it may take, or where memory is wanted, and stays ended. No past is kept:
//! contracts say of an input that it stands for all that its source gave and for the arrivals that were worked off
//! (`HasGiven`), and each call keeps that. The run of all inputs stands above.
#![tactic(auto)]

mod counts;
mod input;
mod work;

pub use counts::added;
pub use input::{Input, InputAnswer};
pub use work::end_of;
