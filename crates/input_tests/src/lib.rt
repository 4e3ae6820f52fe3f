//! A test of an input over a source in memory. It stands in a crate of its own, so that `input_lane` needs no second proof.
//! What inputs give of whole scripts is tried by the cases of `script_run`.
#![tactic(auto)]

#[cfg(test)]
mod calls;
