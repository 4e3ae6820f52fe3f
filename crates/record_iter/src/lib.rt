//! Goes over the data records of a body, and over the fields of a record, by a definition (RFC 7011, sections 3.4.3
//! and 7). Records and values are slices of what was given: nothing is copied, and no memory is taken. `value_place` finds
//! the value of one field, and borrows nothing, for those who change the record in place.
//!
//! Contracts see a walk as what is left of it (`records_left`, `fields_left`). A loop over `records` keeps `HaveRecords`,
//! one over `fields` keeps `HaveValues`, and the lemmas of proofs/WalkLemmas lead from them to `IsRecords` and `IsRecord`
//! of wire_spec: `decoding_tests` has such a caller. The lanes that decode and print stand above.
#![tactic(auto)]

mod cut;
mod field_walk;
mod place;
mod record_walk;
mod size;
mod value;

pub use cut::{fields, records};
pub use field_walk::Fields;
pub use place::{ValuePlace, value_place};
pub use record_walk::{NotRecords, Records};
pub use value::FieldValue;
