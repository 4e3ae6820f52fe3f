//! The sets of a message that is taken, one after another, by the templates of its session and domain (RFC 7011, sections 3.1,
//! 3.3.2, 3.4.3 and 8): template records count from their place on, and each data set with a valid template is cut into
//! the places of its records. The octets are looked at where they are, and nothing of them is copied.
//!
//! Contracts say it for any template records that the manager stands for: what was found is what the definitions give for
//! the sets behind these (`Found`).
#![tactic(auto)]

mod counts;
mod decoded;
mod due;
mod sets;
mod touches;

pub use counts::SetCounts;
pub use decoded::Decoded;
pub use due::{due_first, due_later, is_behind, lost};
pub use sets::decode;
