// Sets of Observation Domains.
ghost use Rattle.std.specs.Prelude.{◌≡◌};
ghost use Rattle.config_spec.specs.Domains.{is_in_some, has_domain};

use crate::listed::Listed;

pub type Ranges = Listed<DomainRange>;

/// The Observation Domains from the first to the last, both in it.
#[derive(Clone, Copy, Debug, PartialEq, Eq, Drop)]
pub struct DomainRange {
    pub low: u32,
    pub high: u32,
}

/// Of which Observation Domains an output gets the messages (RFC 7011, section 3.1).
#[derive(Clone, Debug, PartialEq, Eq, Drop)]
pub enum DomainSet {
    All,
    /// Those in one of the ranges.
    Only(Ranges),
    /// Those in none of the ranges.
    Except(Ranges),
}

fn is_in_some(ranges: &[DomainRange], domain: u32) -> bool
    ensures { result ≡ is_in_some domain ranges.now }
{
    ranges
        .iter()
        .any(|range| range.low <= domain && domain <= range.high)
}

impl DomainSet {
    /// Whether the Observation Domain is in the set.
    pub fn has(&self, domain: u32) -> bool
        ensures { result ≡ has_domain self.now domain }
    {
        match self {
            DomainSet::All => true,
            DomainSet::Only(ranges) => is_in_some(ranges.as_slice(), domain),
            DomainSet::Except(ranges) => !is_in_some(ranges.as_slice(), domain),
        }
    }
}
