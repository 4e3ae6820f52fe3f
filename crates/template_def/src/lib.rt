//! Definitions, which template records give (RFC 7011, sections 3.2 and 3.4): which fields a data record has, and how
//! many of them are scope fields.
//!
//! Contracts see a `Definition` as the value of that name in wire_spec: its kind, its number of scope fields, and its
//! fields. `IsKept` is what every one keeps. The walks over data records, and the tables of templates, stand above.
#![tactic(auto)]

mod checks;
mod definition;
mod equality;
mod fields;
mod specifier;

pub use checks::well_formed;
pub use definition::Definition;
pub use equality::equal_definitions_are_one;
pub use wire_spec::FieldSpec;
