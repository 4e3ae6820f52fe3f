// What is kept of a file's definitions.
ghost use Rattle.std.specs.Prelude.{◌≤◌, ◌+◌, length, max, nat_eq, ℕ};
ghost use Rattle.indexmap.specs.IndexMap.{get};
ghost use Rattle.file_output.specs.Domains.{domain_or_new};

use crate::domain::DomainNumbers;
use indexmap::IndexMap;
use std::alloc::Global;

/// The numbers of the definitions of a file, by domain, and the sequence number of each domain's next message.
#[derive(Drop)]
pub struct Numbering {
    pub(crate) alloc: Global,
    pub(crate) last: u16,
    pub(crate) domains: IndexMap<u32, DomainNumbers>,
    ghost few: { (domain : ℕ) → 255 + length (domain_or_new (get nat_eq domains domain)).known ≤ max 255 last },
}
