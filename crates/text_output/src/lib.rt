//! An output of text: makes lines of JSON or a listing of messages.
//!
//! `TextOutput` implements `MessageTexts`: a run hands it each message, as the intermediates left it, and writes the text that
//! it has then. The records of a set have their lines by forms that are kept for its definition. All rooms keep their memory
//! from message to message, so that a message whose definitions are known takes none.
//!
//! Contracts say of an output that it makes the text of an output of a description (`Makes`). What came before a message
//! doesn't change its text: the text of items is that of each, one after another (`texts_go_item_by_item`).
#![tactic(auto)]

mod laws;
mod output;

pub use laws::texts_go_item_by_item;
pub use output::TextOutput;
