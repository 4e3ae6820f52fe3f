//! The sink names of a description: that of the order log, if it has one, and then those of the outputs.
//!
//! A description has no sink name twice, and few inputs: laws of its definition, as contracts of empty functions. With them
//! a run may open all that a description names.
#![tactic(auto)]

mod laws;
mod names;

pub use laws::{descriptions_have_few_inputs, sink_names_of_a_description_are_distinct};
pub use names::sink_names;
