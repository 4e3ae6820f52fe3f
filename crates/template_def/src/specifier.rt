// A field specifier (RFC 7011, section 3.2).
ghost use Rattle.std.specs.Prelude.{◌≡◌, ◌≤◌, ◌<◌, ◌+◌, ◌/◌, ◌%◌, ◌++◌, MatchOption, OnOk, OnErr, length};
ghost use Rattle.wire_spec.specs.Message.{specifier_size};
ghost use Rattle.wire_spec.specs.Content.{field_of};
ghost use Rattle.wire_spec.specs.Specifiers.{IsField, specifier};
ghost use Rattle.template_def.specs.Walk.{BeginsField};

use col_base::{Octets, be16, be32};
use std::alloc::AllocError;
use wire_spec::FieldSpec;
use wire_spec::numbers::{ENTERPRISE_BIT, ENTERPRISE_SPECIFIER, SPECIFIER};

/// The field of a specifier.
fn field_of(octets: &[u8]) -> FieldSpec
    requires front { 4 ≤ length octets.now }
    requires inside { specifier_size octets.now ≤ length octets.now }
    ensures is { result ≡ field_of octets.now }
    ensures kept { IsField result }
{
    let first = be16(octets, 0);
    let pen = if first < ENTERPRISE_BIT {
        0
    } else {
        be32(octets, 4)
    };
    FieldSpec {
        pen,
        id: first % ENTERPRISE_BIT,
        len: be16(octets, 2),
    }
}

/// The octets of a specifier.
fn specifier_size(octets: &[u8]) -> usize
    requires { 2 ≤ length octets.now }
    ensures { result ≡ specifier_size octets.now }
{
    if be16(octets, 0) < ENTERPRISE_BIT {
        SPECIFIER
    } else {
        ENTERPRISE_SPECIFIER
    }
}

/// The field of the specifier that begins the octets, and what follows it. None exactly where that specifier is cut.
pub fn split_field(octets: &[u8]) -> Option<(FieldSpec, &[u8])>
    ensures { MatchOption result (length octets.now < specifier_size octets.now) (λ found. BeginsField octets.now found.0 found.1.now) }
{
    if octets.len() < SPECIFIER {
        return None;
    }
    let size = specifier_size(octets);
    if octets.len() < size {
        return None;
    }
    Some((field_of(octets), &octets[size..]))
}

/// The first of the two octets of a number.
fn high(number: u16) -> u8
    ensures { result ≡ number / 256 }
{
    (number / 256) as u8
}

/// The second of the two octets of a number.
fn low(number: u16) -> u8
    ensures { result ≡ number % 256 }
{
    (number % 256) as u8
}

/// Appends the specifier of a field of another enterprise than IANA.
fn put_marked(field: FieldSpec, out: &mut Octets) -> Result<(), AllocError>
    requires kept { IsField field }
    requires marked { field.pen ≡ 0 → ⊥ }
    ensures ok { OnOk result (out.new ≡ out.old ++ specifier field) }
    ensures err { OnErr result (out.new ≡ out.old) }
{
    let first = ENTERPRISE_BIT + field.id;
    let above = (field.pen / 65536) as u16;
    let below = (field.pen % 65536) as u16;
    out.extend(&[
        high(first),
        low(first),
        high(field.len),
        low(field.len),
        high(above),
        low(above),
        high(below),
        low(below),
    ])
}

/// Appends the specifier of a field.
pub fn put_specifier(field: FieldSpec, out: &mut Octets) -> Result<(), AllocError>
    requires { IsField field }
    ensures ok { OnOk result (out.new ≡ out.old ++ specifier field) }
    ensures err { OnErr result (out.new ≡ out.old) }
{
    if field.pen != 0 {
        return put_marked(field, out);
    }
    out.extend(&[
        high(field.id),
        low(field.id),
        high(field.len),
        low(field.len),
    ])
}
