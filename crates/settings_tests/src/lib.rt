//! Tests of `element_table`: what tables in TOML add, and their first faults. They stand in a crate of their own, so that
//! it needs no second proof.
#![tactic(auto)]

#[cfg(test)]
mod element_tables;
