//! Lines of records by a definition, prepared once for each definition. A record's line is a loop over prepared members:
//! each is octets that stand before a value, and the value, written by its type.
//!
//! `Draft` puts a line together, `PreparedLine` writes the lines of records, and `Lines` is the room that they are written
//! into, kept from message to message with its memory. Contracts see a prepared line as what it puts of a record's values
//! (`line_text`), and `Lines` as their text. What a line is made of, JSON or a listing, is for the crates above to say.
#![tactic(auto)]

mod choose;
mod draft;
mod general;
mod hot;
mod lines;
mod literal;
mod member;
mod piece;
mod places;
mod prepared;
mod shape;
mod way;

pub use draft::Draft;
pub use lines::Lines;
pub use prepared::PreparedLine;
