//! Which records a filter keeps, as calls: `keeps` by the table of a description, and `PreparedFilter` for many records of
//! one definition. `PreparedFilter::new` looks the rules up once, and takes memory; `keeps` of either takes none.
//!
//! Contracts see that a prepared filter `Suits` a table and the fields of a definition. Whoever holds both has of each
//! record the answer of the table. The lanes stand above.
#![tactic(auto)]

mod check;
mod plain;
mod prepared;
mod rule;

pub use plain::keeps;
pub use prepared::PreparedFilter;
