//! Lines of JSON (RFC 8259) of data records, one line for each record.
//!
//! `Prepared` is made once for a definition, by a table of elements, and puts the lines of its records into `Lines`, a room
//! that is kept from message to message. Contracts see the lines as `json_line` of text_spec. Whoever prints keeps a
//! `Prepared` beside its definition, with the fact `Suits` about the two.
#![tactic(auto)]

mod alone;
mod chains;
mod member;
mod prepared;
mod records;
mod values;

pub use alone::put_record;
pub use prepared::Prepared;
pub use prepared_lines::Lines;
pub use records::put_records;
