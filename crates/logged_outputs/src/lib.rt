//! What becomes of the messages of a run: each is entered in the order log, then the intermediates leave something of it, and
//! each output writes its text of that.
//!
//! The intermediates take a message once, for all outputs. The text of a message is written in one write, behind its entry.
//! A log that has ended takes no entry, and no message has a text then; an output that has ended takes no text, and the log
//! and the other outputs go on; where an intermediate wanted memory, all outputs stay as they are. None of that ends an
//! input. Contracts say which entries the log holds, and that each output holds its text of their items. The run of a
//! description stands above.
#![tactic(auto)]

mod logged;
mod output;
mod outputs;

pub use logged::LoggedOutputs;
pub use output::Output;
pub use outputs::Outputs;
