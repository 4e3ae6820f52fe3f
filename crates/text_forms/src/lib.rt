//! What the text of messages is made by, for each definition: the lines of its records, of JSON or of a listing, prepared
//! once. `Forms` keeps them by session, domain and Template ID, and finds them once a set: those of a definition that changes
//! take the place of those of the one before it, and what was kept of a session goes when it closes.
//!
//! `put_sets` puts the text of a message's sets behind what was there. Contracts see the forms as what they are made of, and
//! the text as that of the sets (`PutsSets`).
#![tactic(auto)]

mod forms;
mod kind;
mod line;
mod maker;

pub use forms::Forms;
pub use kind::{TextKind, text_kind};
pub use maker::Maker;
