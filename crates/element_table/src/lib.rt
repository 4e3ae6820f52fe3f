//! The information elements that values and names are printed by (RFC 7012): the built-in ones, and those of
//! element tables in TOML.
//!
//! Contracts see `Elements` as the list of its rows. A look-up takes no memory and doesn't scan; each row
//! keeps its printed name. Above it stand the texts of values, and whoever reads element tables.
#![tactic(auto)]

mod add;
mod builtin;
mod elements;
mod fault;
mod keys;
mod names;
mod rows;

pub use element_spec::TableFault;
pub use elements::Elements;
pub use fault::fault_text;
pub use text_spec::{Element, ElementType};
