//! A description and the element files that it names: read in order up to the first fault, and the line and the status of
//! that fault.
//!
//! `read_description` answers the description with the table of its elements, or why it has none, which is what `Judges` of
//! call_spec says of the texts that a Site has. Of the Site a text that failed has counted its fault, and all else is as it
//! was. The commands `check` and `collect` stand above.
#![tactic(auto)]

mod read;
mod report;
mod verdict;

pub use read::{Description, read_description};
pub use report::{report_fine, report_refusal};
pub use verdict::Refusal;
