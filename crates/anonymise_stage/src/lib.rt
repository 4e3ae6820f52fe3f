//! Changes the addresses of a record in place: `hide` by the table of a description, and for many records a `RowTable`,
//! made once for the table, with a `PreparedAnonymiser`, made once for each definition. Making them takes memory; `hide` of
//! either takes none, and copies nothing.
//!
//! Contracts see that a row table `Holds` a table, and that what is prepared `Suits` it and the fields of a definition. The
//! octets that are left are those of `hidden_octets` of act_spec: one record of the same definition still. The lanes stand
//! above.
#![tactic(auto)]

mod listed;
mod prepared;
mod prepared_row;
mod row;
mod row_table;
mod segment;
mod walk;

pub use prepared::PreparedAnonymiser;
pub use row_table::RowTable;
pub use walk::hide;
