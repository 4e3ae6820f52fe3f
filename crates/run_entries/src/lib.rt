//! The entries of a run are arrivals in an order: what inputs that have ended handed on is, input by input, the first items
//! that its arrivals are decoded to, and all of them where it did not want memory.
//!
//! So the order of the entries is an order of the arrivals, and an output that has the text of their items has that of the
//! arrivals in this order. Each law stands as the contract of an empty function. The run of a description stands above.
#![tactic(auto)]

mod law;

pub use law::{
    counts_of_inputs_are_those_of_the_run, entries_are_arrivals_in_an_order, inputs_have_entries,
};
