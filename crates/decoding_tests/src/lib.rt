//! Tests of the crates that decode, over `sample_messages` and messages of their own, and callers that walk over messages,
//! streams and records, with their contracts. They stand in a crate of their own, so that those crates need no second proof.
#![tactic(auto)]

#[cfg(test)]
mod definitions;
#[cfg(test)]
mod messages;
#[cfg(test)]
mod records;
#[cfg(test)]
mod streams;
