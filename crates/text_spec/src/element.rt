// An information element.
ghost use Rattle.std.specs.Prelude.{◌≡◌};

use col_base::Text;
use std::alloc::AllocError;

/// The abstract data type of an element (RFC 7012, section 3.1; of the lists RFC 6313, section 4.1).
#[derive(Clone, Copy, Debug, PartialEq, Eq)]
pub enum ElementType {
    OctetArray,
    Unsigned8,
    Unsigned16,
    Unsigned32,
    Unsigned64,
    Signed8,
    Signed16,
    Signed32,
    Signed64,
    Float32,
    Float64,
    Boolean,
    MacAddress,
    /// The type `string`: text in UTF-8.
    Str,
    DateTimeSeconds,
    DateTimeMilliseconds,
    DateTimeMicroseconds,
    DateTimeNanoseconds,
    Ipv4Address,
    Ipv6Address,
    BasicList,
    SubTemplateList,
    SubTemplateMultiList,
}

/// An information element: its enterprise number, 0 for those that IANA registers; its number there, below
/// 32768; its type; and its name with the prefix that stands before it.
#[derive(Drop)]
pub struct Element {
    pub pen: u32,
    pub id: u16,
    pub kind: ElementType,
    pub prefix: Text,
    pub name: Text,
}

impl Clone for Element {
    ghost is_clone = { λ s t. t ≡ s };

    fn clone(&self) -> Result<Element, AllocError> {
        Ok(Element {
            pen: self.pen,
            id: self.id,
            kind: self.kind,
            prefix: self.prefix.clone()?,
            name: self.name.clone()?,
        })
    }
}
