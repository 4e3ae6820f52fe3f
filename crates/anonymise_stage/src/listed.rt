// Whether a field is one that an anonymiser changes.
ghost use Rattle.std.specs.Prelude.{◌≡◌};
ghost use Rattle.act_spec.specs.Anonymise.{is_listed};

use config_spec::AnonTable;
use wire_spec::FieldSpec;

/// Whether the element of a field is listed.
pub fn is_listed(table: &AnonTable, field: FieldSpec) -> bool
    ensures { result ≡ is_listed table.now field }
{
    table
        .fields
        .as_slice()
        .iter()
        .any(|pair| pair.pen == field.pen && pair.id == field.id)
}
