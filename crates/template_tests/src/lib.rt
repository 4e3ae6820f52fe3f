//! Tests of the managers of templates of `template_manager`, as lists of calls. They stand in a crate of their own, so that
//! `template_manager` needs no second proof.
#![tactic(auto)]

#[cfg(test)]
mod manager;
