// Changes a record in place.
ghost use Rattle.std.specs.Prelude.{◌≡◌, ◌≤◌, None, length, drop};
ghost use Rattle.wire_spec.specs.Record.{IsSomeRecord};
ghost use Rattle.wire_spec.specs.Size.{value_size};
ghost use Rattle.config_spec.specs.Form.{IsAnonymiser};
ghost use Rattle.act_spec.specs.Anonymise.{hidden_octets};
ghost use Rattle.anonymise_stage.specs.Step.{IsFieldHidden};

use crate::listed::is_listed;
use crate::row::hide_value;
use config_spec::AnonTable;
use record_iter::value_place;
use template_def::Definition;
use wire_spec::FieldSpec;

/// Changes the value of the field that begins at an octet of a record, if it is a listed address. It answers where the
/// next field begins.
fn hide_field(table: &AnonTable, field: FieldSpec, rec: &mut [u8], at: usize) -> usize
    requires form { IsAnonymiser table.now }
    requires inside { at ≤ length rec.old }
    requires whole { value_size field.len (drop at rec.old) ≡ None → ⊥ }
    ensures { IsFieldHidden table.now field at rec.old rec.new result }
{
    let place = value_place(field.len, rec, at);
    let end = place.at + place.len;
    if is_listed(table, field) {
        hide_value(table, &mut rec[place.at..end]);
    }
    end
}

/// Changes a record in place: the addresses in the listed fields, and nothing else. Each value stays as long as it was,
/// and its length stands as it stood, so the record stays one record of its definition (RFC 7011, section 7).
pub fn hide(table: &AnonTable, def: &Definition, rec: &mut [u8])
    requires form { IsAnonymiser table.now }
    requires is_record { IsSomeRecord def.now.fields rec.old }
    ensures { rec.new ≡ hidden_octets table.now def.now.fields rec.old }
{
    let mut at = 0;
    for field in def.fields() {
        at = hide_field(table, *field, rec, at);
    }
}
