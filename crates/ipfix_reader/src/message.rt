// A message that was checked.
ghost use Rattle.std.specs.Prelude.{◌≡◌, ◌≤◌, ◌<◌, ◌+◌, ◌^◌, ◌⊎◌, Some, length, drop};
ghost use Rattle.col_base.specs.Numbers.{be16_at, be32_at};
ghost use Rattle.wire_spec.specs.Message.{kind_of};
ghost use Rattle.ipfix_reader.specs.Walk.{IsSomeMessage};
ghost use Rattle.ipfix_reader.specs.Left.{sets_left, place_of, message_walked, templates_left, kind_left};

use crate::raw::RawSet;
use crate::set_walk::Sets;
use crate::template_walk::TemplateRecords;
use col_base::{Kind, be16, be32};
use wire_spec::numbers::{MESSAGE_HEADER, TEMPLATE_SET};

/// A message, which borrows its octets.
#[derive(Clone, Copy)]
pub struct Message<'a> {
    octets: &'a [u8],
    ghost front: { (16 ≤ length octets.now) × (length octets.now < 2 ^ 16) },
    pub ghost whole: { ∥ IsSomeMessage octets.now ∥₁ },
}

/// The header of a message (RFC 7011, section 3.1): its octets with the header, the Export Time in seconds
/// since 1970, the Sequence Number, and the Observation Domain ID.
#[derive(Clone, Copy, Debug, PartialEq, Eq, PartialOrd, Ord, Hash)]
pub struct Header {
    pub length: u16,
    pub export: u32,
    pub seq: u32,
    pub domain: u32,
}

/// The octets behind the header.
pub(crate) fn sets_of(octets: &[u8]) -> &[u8]
    requires { 16 ≤ length octets.now }
    ensures { result.now ≡ drop 16 octets.now }
{
    &octets[MESSAGE_HEADER..]
}

impl<'a> Message<'a> {
    ghost use Rattle.ipfix_reader.specs.Octets.{octets_of};

    /// The message that these octets are.
    pub(crate) fn new(octets: &'a [u8]) -> Self
        requires front { 16 ≤ length octets.now }
        requires short { length octets.now < 2 ^ 16 }
        requires whole { IsSomeMessage octets.now }
        ensures { octets_of result ≡ octets.now }
    {
        Message { octets }
    }

    pub fn header(&self) -> Header
        ensures length { result.length ≡ be16_at 2 (octets_of self.now) }
        ensures export { result.export ≡ be32_at 4 (octets_of self.now) }
        ensures seq { result.seq ≡ be32_at 8 (octets_of self.now) }
        ensures domain { result.domain ≡ be32_at 12 (octets_of self.now) }
    {
        let octets = self.octets;
        Header {
            length: be16(octets, 2),
            export: be32(octets, 4),
            seq: be32(octets, 8),
            domain: be32(octets, 12),
        }
    }

    /// Goes over the sets, from octet 16 on.
    pub fn sets(&self) -> Sets<'a>
        ensures message { message_walked result ≡ octets_of self.now }
        ensures at { place_of result ≡ 16 }
        ensures rest { sets_left result ≡ drop 16 (octets_of self.now) }
    {
        Sets::new(self.octets)
    }
}

/// Goes over the template records of a set of ID 2 or 3.
pub fn template_records(set: RawSet<'_>) -> TemplateRecords<'_>
    requires { (set.id ≡ 2) ⊎ (set.id ≡ 3) }
    ensures rest { templates_left result ≡ set.entry.body.now }
    ensures kind { kind_of set.entry.id ≡ Some (kind_left result) }
{
    if set.id == TEMPLATE_SET {
        TemplateRecords::new(Kind::Template, set.body)
    } else {
        TemplateRecords::new(Kind::Options, set.body)
    }
}
