//! The text of an output of IPFIX Files: the messages of a file that each message of a run adds.
//!
//! `FileTexts` implements `MessageTexts`: a run hands it each message as the intermediates leave it, and writes the text that
//! it has then. Records are taken where they stand, and are copied once, into the text.
//!
//! Contracts say for which items of an output it stands (`Stands`): the numbers of definitions and the sequence numbers are
//! those of the items that came to the output, and none is above the last that the output may use.
#![tactic(auto)]

mod maker;
mod placed;

pub use maker::FileTexts;
