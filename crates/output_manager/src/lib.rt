//! Which messages come to an output: the fan-out of one stream of messages to outputs by their Observation Domains.
//!
//! Every output asks `goes` of each message that the intermediates leave. Contracts say that it answers as the definitions
//! pick the items of an output (`goes_to`).
#![tactic(auto)]

mod goes_out;

pub use goes_out::goes;
