//! Where the records of a body stand, as places in the octets of its message (RFC 7011, sections 3.3.1, 3.4.3 and 7).
//! Nothing is copied. Memory is asked for once, for all places together.
#![tactic(auto)]

mod even;
mod walk;

pub use walk::places;
