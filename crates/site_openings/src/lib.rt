//! Opens the sources of all inputs, and the sinks of the order log and the outputs, in order, and gives them back.
//!
//! Where one can't be opened, those before it are given back, and the answer says which it was. Contracts count by name:
//! how often a place or a sink name was opened, and whether something of it failed; so two inputs may share a place. What
//! goes out stands in the order of its names. `open_all` opens all of a run, and where it is refused its contract is the
//! part of a call's promise that a refusal has (`Comes` of call_spec). The run of a description stands above.
#![tactic(auto)]

mod all;
mod places;
mod sinks;
mod stopped;

pub use all::{Opened, Unopened, back_all, back_unused, open_all};
pub use places::{back_sources, open_sources};
pub use sinks::{back_sinks, open_sinks};
pub use stopped::Stopped;
