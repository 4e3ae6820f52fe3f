//! Tests of what runs leave where memory is wanted, and of what they keep of definitions. They stand in a crate of their own,
//! so that the crates below need no second proof. All other whole runs are cases of `script_run`.
#![tactic(auto)]

#[cfg(test)]
mod definitions;
#[cfg(test)]
mod memory;
