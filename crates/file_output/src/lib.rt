//! The messages of an IPFIX File (RFC 7011, sections 3.1 to 3.4; RFC 5655, section 7): each definition of a domain gets a
//! number at its first use, and a message of its own before the records that it defines. Definitions of several sessions and
//! IDs that are equal are one, and are found in constant time.
//!
//! Contracts see a `Numbering` as what it keeps of each domain, and say for which items of the file it stands (`StandsFor`):
//! `put` appends exactly the octets of one item more. Sets come by `SetRecords`, so that records may lie in a message, or
//! apart.
#![tactic(auto)]

mod counting;
mod domain;
mod fault;
mod file_set;
mod head;
mod kept;
mod known;
mod message;
mod numbering;
mod placed;
mod records;
mod used;

pub use fault::FileFault;
pub use file_set::{FileSet, FileSets};
pub use kept::Numbering;
pub use placed::PlacedSet;
pub use records::SetRecords;
