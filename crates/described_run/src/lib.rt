//! The run of a description on one thread, over a Site.
//!
//! `run_described` opens all sources and sinks, hands on what the inputs give until all have ended, notes how all ended, and
//! gives all back. It is generic over the makers of the outputs' texts. All memory that is wanted behind the run is taken
//! before anything is opened; where memory is wanted before the run, nothing is read and all is given back. Contracts say
//! that what came of it is what a call promises of a run, or of one that is refused. What is said of it, and the commands,
//! stand above.
#![tactic(auto)]

mod ended;
mod handed;
mod run;
mod taker;

pub use ended::{note_all, room_for};
pub use handed::hand_on;
pub use run::run_described;
pub use taker::{Ready, end, room_for_outputs};
