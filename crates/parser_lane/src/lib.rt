//! The parser of an input: each arrival becomes a message for the stages behind it, and is counted (RFC 7011, sections 3.1, 8
//! and 9). The octets of a message are shared and not copied; the records of its sets are places in them.
//!
//! `Parser::work` takes one arrival and gives its message. Nothing of the past is stored but what later arrivals can ask
//! for: the sessions that are open, each with its domains, their templates and the sequence numbers that are due.
//! Contracts say of a parser that it stands for a list of arrivals (`Stands`): its answer to one more is the item that the
//! definitions give for it behind these, and its counts are theirs. Once memory was wanted every later call is refused.
#![tactic(auto)]

mod count;
mod data;
mod open_sessions;
mod parser;

pub use parser::Parser;
