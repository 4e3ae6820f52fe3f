//! What elements, values, names and records are called in text (RFC 7011, section 6; RFC 7012, section 3.1).
//! The definitions are in specs/; here stand the plain types that they speak of, and the examples by which
//! the definitions are held to known texts.
#![tactic(auto)]

mod element;
pub mod examples;
pub mod laws;

pub use element::{Element, ElementType};
