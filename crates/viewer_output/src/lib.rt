//! The lines of a listing, which people read: sessions and seconds, and of a message its numbers, its sets and their
//! records.
//!
//! Each call appends one line, and appends nothing where it is refused memory. The line of a record can be prepared once
//! for its definition (`prepare_view`), for those who list many.
#![tactic(auto)]

mod field;
mod head;
mod mark;
mod record;
mod session;

pub use head::{put_head, put_set};
pub use record::{prepare_view, put_view_record};
pub use session::{put_session, put_tick};
