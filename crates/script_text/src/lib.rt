//! Reads scripts: a script is lines that say the words of a call and the outside that it finds, and a file of cases has many
//! of them, each beside what is to come of it. Small programs play what was read, over a Site in memory, so that no system
//! is touched and every fault of it can be planned. docs/TESTS.md has all forms.
#![tactic(auto)]

mod block;
mod case;
mod case_file;
mod described;
mod each;
mod event;
mod fault;
mod given;
mod part;
mod pieces;
mod planned;
mod played_files;
mod printed_files;
mod script;
mod wanted;

pub use case::{Case, Player, Report};
pub use described::{description_of, key_text, transport_word};
pub use fault::{Fault, LineFault};
pub use given::Given;
pub use part::hexadecimal;
pub use planned::{PlannedSink, PlannedSource};
pub use played_files::play_files;
pub use printed_files::{Printer, print_files};
pub use script::Script;
pub use wanted::Wanted;
