//! The events of one file to JSON lines, message by message: a source is read as an input, and its messages are checked and
//! decoded by the templates of their session and domain. The lines of each message that has a record go to a sink in one
//! write. What is held at a time are the messages of one answer of the source, the lines of one message, and the templates
//! and prepared lines of each session that is open.
//!
//! `Run::file` asks the source to its end, its first fault or the most answers that are taken. An output that failed gets
//! nothing more, and the source is read on. What came of it is `Ran`: the events that were given, whatever they are, with
//! their text (`IsFileText` of call_spec).
#![tactic(auto)]

mod builtin;
mod form;
mod open_sessions;
mod run;
mod session;
mod texts;
mod work;

pub use run::{Ended, Run};
