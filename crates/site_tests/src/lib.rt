//! Tests of the sources, sinks and Sites of `site_io`: those in memory, and the adapters for std's readers and writers.
//! They stand in a crate of their own, so that `site_io` needs no second proof.
#![tactic(auto)]

#[cfg(test)]
mod adapters;
#[cfg(test)]
mod memory;
