//! The generator of load, as a source: the events that `generate` runs on, made one by one as they are asked for. It reads
//! nothing and takes no memory, and each message is written right into the room that it is asked with.
#![tactic(auto)]

mod draw;
mod message;
mod put;
mod source;

pub use source::LoadSource;
