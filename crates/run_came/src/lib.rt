//! What came of a run over a Site is what a call promises of it.
//!
//! A run opens its sources and sinks, hands on what its inputs give until all have ended, and gives all back (`RanOver`).
//! From that, and from what is noted of how all ended, follows the part of a call's promise that a run has (`Comes` of
//! call_spec); and what is told of it gives its lines and its status. Each law stands as the contract of an empty function.
//! The run of a description stands above.
#![tactic(auto)]

mod law;

pub use law::{what_is_told_of_a_run_is_said, what_ran_over_a_site_came_to_it};
