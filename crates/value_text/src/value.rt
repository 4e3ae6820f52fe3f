// Values of all types.
ghost use Rattle.std.specs.Prelude.{◌≡◌, ◌≤◌, ◌+◌, ◌*◌, ◌++◌, IfSome, OnErr, OnOk, Some, length, take};
ghost use Rattle.text_spec.specs.Value.{value_text};

use crate::boolean::place_boolean;
use crate::dotted::place_dotted_or_octets;
use crate::groups::place_ipv6;
use crate::mac::place_mac;
use crate::number::{place_signed, place_unsigned};
use crate::octet_text::place_octets;
use crate::string::place_string;
use crate::time::{place_microseconds, place_milliseconds, place_nanoseconds, place_seconds};
use col_base::{Octets, WantOfMemory};
use text_spec::ElementType;

/// Puts a value of a type.
#[tactic(auto, unfolding(text_spec::specs::Value::value_text))]
fn place_typed(kind: ElementType, value: &[u8], text: &mut [u8], at: usize) -> usize
    requires { at + 6 * length value.now + 64 ≤ length text.old }
    ensures grown { take result text.new ≡ take at text.old ++ value_text (Some kind) value.now }
    ensures near { result ≤ at + 6 * length value.now + 20 }
{
    match kind {
        ElementType::Unsigned8 => place_unsigned(1, value, text, at),
        ElementType::Unsigned16 => place_unsigned(2, value, text, at),
        ElementType::Unsigned32 => place_unsigned(4, value, text, at),
        ElementType::Unsigned64 => place_unsigned(8, value, text, at),
        ElementType::Signed8 => place_signed(1, value, text, at),
        ElementType::Signed16 => place_signed(2, value, text, at),
        ElementType::Signed32 => place_signed(4, value, text, at),
        ElementType::Signed64 => place_signed(8, value, text, at),
        ElementType::Boolean => place_boolean(value, text, at),
        ElementType::MacAddress => place_mac(value, text, at),
        ElementType::Str => place_string(value, text, at),
        ElementType::DateTimeSeconds => place_seconds(value, text, at),
        ElementType::DateTimeMilliseconds => place_milliseconds(value, text, at),
        ElementType::DateTimeMicroseconds => place_microseconds(value, text, at),
        ElementType::DateTimeNanoseconds => place_nanoseconds(value, text, at),
        ElementType::Ipv4Address => place_dotted_or_octets(value, text, at),
        ElementType::Ipv6Address => place_ipv6(value, text, at),
        ElementType::OctetArray
        | ElementType::Float32
        | ElementType::Float64
        | ElementType::BasicList
        | ElementType::SubTemplateList
        | ElementType::SubTemplateMultiList => place_octets(value, text, at),
    }
}

/// Puts the text of a value at a place, and answers the place behind it: by the rule of its type where that covers the
/// value, and else its octets in hexadecimal. No type stands for an element that no table has. What stands behind the
/// text may have been written over.
#[tactic(auto, unfolding(text_spec::specs::Value::value_text))]
pub fn place_value(kind: Option<ElementType>, value: &[u8], text: &mut [u8], at: usize) -> usize
    requires { at + 6 * length value.now + 64 ≤ length text.old }
    ensures grown { take result text.new ≡ take at text.old ++ value_text kind value.now }
    ensures near { result ≤ at + 6 * length value.now + 20 }
{
    match kind {
        Some(kind) => place_typed(kind, value, text, at),
        None => place_octets(value, text, at),
    }
}

/// The octets of the room in which a value of so many octets is put.
pub fn value_room(len: usize) -> usize
    requires { len ≤ 65535 }
    ensures { result ≡ 6 * len + 64 }
{
    6 * len + 64
}

/// The octets of the room in which a value is put, None where no memory has so many.
fn room_of(value: &[u8]) -> Option<usize>
    ensures { IfSome result (λ room. room ≡ 6 * length value.now + 64) }
{
    value.len().checked_mul(6)?.checked_add(64)
}

/// Appends the text of a value, as `place_value` puts it. Where memory is refused nothing is appended.
pub fn put_value(
    kind: Option<ElementType>,
    value: &[u8],
    out: &mut Octets,
) -> Result<(), WantOfMemory>
    ensures ok { OnOk result (out.new ≡ out.old ++ value_text kind value.now) }
    ensures err { OnErr result (out.new ≡ out.old) }
{
    let Some(room) = room_of(value) else {
        return Err(WantOfMemory);
    };
    let at = out.len();
    out.extend_zeros(room)?;
    let end = place_value(kind, value, out.as_mut_slice(), at);
    out.truncate(end);
    Ok(())
}
