//! The texts of values and the names of elements (RFC 7011, section 6.1; RFC 7012, section 3.1), which lines of JSON and
//! listings are made of.
//!
//! A text is put at a place of a room that is large enough, so that nothing asks for memory while a line is written:
//! `at` octets of the room stand, and the place behind the text is answered. `put_value` and `put_name` append a text to
//! octets, and append nothing where they are refused memory.
#![tactic(auto)]

mod boolean;
mod digits;
mod dotted;
mod groups;
mod hexadecimal;
mod mac;
mod name;
mod number;
mod octet_text;
mod place;
mod string;
mod time;
mod value;
mod zero_run;

pub use digits::{place_u32, place_u64};
pub use dotted::place_ipv4;
pub use name::put_name;
pub use place::{BLOCK, place_block, place_piece};
pub use value::{place_value, put_value, value_room};
