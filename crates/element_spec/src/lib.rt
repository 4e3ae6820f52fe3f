//! What an element table is: the rows that a TOML text adds to those that are known, or its first fault.
//! The definitions are in specs/, over the finished tree of the text; here stand the plain types that they
//! speak of.
#![tactic(auto)]

pub mod examples;
mod fault;
mod key;
pub mod laws;

pub use fault::TableFault;
pub use key::Key;
