// Lists of fields.
ghost use Rattle.std.specs.Prelude.{◌≡◌, ◌≤◌, ◌<◌, ◌^◌, ℕ, IfOk, OnOk, OnErr, ◌++◌, length};
ghost use Rattle.std.specs.List.{AllByRecursion};
ghost use Rattle.wire_spec.specs.Message.{specifiers_size, least_of};
ghost use Rattle.wire_spec.specs.Record.{shortest};
ghost use Rattle.wire_spec.specs.Size.{are_fixed};
ghost use Rattle.wire_spec.specs.Content.{fields_of};
ghost use Rattle.wire_spec.specs.Specifiers.{IsField, specifier, specifiers};
ghost use Rattle.template_def.specs.Kept.{AppendsFront};

use crate::specifier::{put_specifier, split_field};
use col_base::Octets;
use std::alloc::{AllocError, Global};
use wire_spec::FieldSpec;
use wire_spec::numbers::{ENTERPRISE_SPECIFIER, SPECIFIER, VARIABLE_LENGTH};

/// The fields of specifiers.
pub fn read_fields(alloc: Global, specs: &[u8]) -> Result<Vec<FieldSpec>, AllocError>
    requires { (count : ℕ) × (specifiers_size count specs.now ≡ length specs.now) }
    ensures are { IfOk result (λ fields. (count : ℕ) → specifiers_size count specs.now ≡ length specs.now → fields.items ≡ fields_of count specs.now) }
    ensures kept { IfOk result (λ fields. AllByRecursion IsField fields.items) }
{
    let mut fields = Vec::with_capacity(alloc, specs.len() / SPECIFIER)?;
    let mut rest = specs;
    while let Some((field, after)) = split_field(rest) {
        fields.push(field)?;
        rest = after;
    }
    Ok(fields)
}

/// The fewest octets of a field's value with its length.
fn least_of(len: u16) -> u32
    ensures is { result ≡ least_of len }
    ensures small { result ≤ 65535 }
{
    if len == VARIABLE_LENGTH {
        1
    } else {
        u32::from(len)
    }
}

/// The octets of the shortest record.
pub fn shortest(fields: &[FieldSpec]) -> u32
    requires { length fields.now < 2 ^ 16 }
    ensures { result ≡ shortest fields.now }
{
    let mut least = 0;
    for field in fields {
        least += least_of(field.len);
    }
    least
}

/// The octets of a written specifier.
fn written_size(field: FieldSpec) -> u32
    ensures is { result ≡ length (specifier field) }
    ensures small { result ≤ 8 }
{
    let size = if field.pen == 0 {
        SPECIFIER
    } else {
        ENTERPRISE_SPECIFIER
    };
    size as u32
}

/// The octets of the fields' specifiers.
pub fn written_len(fields: &[FieldSpec]) -> u32
    requires { length fields.now < 2 ^ 16 }
    ensures { result ≡ length (specifiers fields.now) }
{
    let mut size = 0;
    for field in fields {
        size += written_size(*field);
    }
    size
}

/// Whether no field varies in length.
pub fn are_fixed(fields: &[FieldSpec]) -> bool
    ensures { result ≡ are_fixed fields.now }
{
    fields.iter().all(|field| field.len != VARIABLE_LENGTH)
}

/// Appends the specifiers of fields, and where memory is wanted a front of them.
pub fn put_fields(fields: &[FieldSpec], out: &mut Octets) -> Result<(), AllocError>
    requires { AllByRecursion IsField fields.now }
    ensures ok { OnOk result (out.new ≡ out.old ++ specifiers fields.now) }
    ensures err { OnErr result (AppendsFront out.old out.new (specifiers fields.now)) }
{
    for field in fields {
        put_specifier(*field, out)?;
    }
    Ok(())
}
