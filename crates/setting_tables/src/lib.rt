//! The tables of a description: the rows of their keys, look-ups at a key, and the first fault of all tables.
//!
//! `tables_fit` is `tables_fault` of `config_spec`, fault for fault. What holds between tables, and what they stand for, is
//! read by `startup_config`.
#![tactic(auto)]

mod fits;
/// The row of each key that stands for a number or a flag: what its value has to be, and what stands in its place.
pub mod rows;
mod tables;
mod tree;
mod walk;
mod whole;
mod words;

pub use fits::least_at;
pub use tables::kind_named;
pub use tree::{items_at, text_at, text_found, value_at};
pub use whole::{tables_fit, version_of};
pub use words::{choice_of, kinds_of};
