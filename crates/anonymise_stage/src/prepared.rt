// An anonymiser that was prepared for the records of one definition.
ghost use Rattle.std.specs.Prelude.{◌≡◌, ◌≤◌, ◌<◌, ◌+◌, ◌^◌, None, false, true, IfOk, length, drop, map};
ghost use Rattle.std.specs.List.{AllByRecursion};
ghost use Rattle.wire_spec.specs.Record.{IsSomeRecord, shortest};
ghost use Rattle.wire_spec.specs.Size.{are_fixed, value_size};
ghost use Rattle.config_spec.specs.declared.tables.AnonTable.{AnonTable};
ghost use Rattle.act_spec.specs.Anonymise.{hidden_octets, is_listed};
ghost use Rattle.anonymise_stage.specs.Prepared.{Suits, hidden_at, hidden_place, places_of};
ghost use Rattle.anonymise_stage.specs.Step.{IsFieldHidden};
ghost use Rattle.anonymise_stage.specs.Table.{Holds};

use crate::listed::is_listed;
use crate::row_table::RowTable;
use config_spec::AnonTable;
use record_iter::{ValuePlace, value_place};
use std::alloc::{AllocError, Global};
use template_def::Definition;
use wire_spec::FieldSpec;

/// Which fields of a definition's records an anonymiser changes, made once for each definition.
#[derive(Drop)]
pub struct PreparedAnonymiser {
    /// Where the listed addresses stand in each record. Empty where a field varies in length.
    places: Vec<ValuePlace>,
    /// Whether each field is listed. Empty where no field varies in length.
    listed: Vec<bool>,
    is_fixed: bool,
}

/// Where the listed addresses stand in each record.
fn places_of(
    alloc: Global,
    table: &AnonTable,
    fields: &[FieldSpec],
) -> Result<Vec<ValuePlace>, AllocError>
    requires fixed { are_fixed fields.now ≡ true }
    requires short { shortest fields.now < 2 ^ 32 }
    ensures { IfOk result (λ places. places.items ≡ places_of table.now 0 fields.now) }
{
    let mut places = Vec::new(alloc);
    let mut at = 0;
    for field in fields {
        let len = field.len as usize;
        if is_listed(table, *field) && (field.len == 4 || field.len == 16) {
            places.push(ValuePlace { at, len })?;
        }
        at += len;
    }
    Ok(places)
}

/// Whether each field is listed.
fn listed(alloc: Global, table: &AnonTable, fields: &[FieldSpec]) -> Result<Vec<bool>, AllocError>
    ensures { IfOk result (λ listed. listed.items ≡ map (is_listed table.now) fields.now) }
{
    let mut listed = Vec::new(alloc);
    for field in fields {
        listed.push(is_listed(table, *field))?;
    }
    Ok(listed)
}

/// Changes the value at a place of a record, if it is an address.
fn hide_at(rows: &RowTable, place: ValuePlace, rec: &mut [u8])
    requires holds { (table : AnonTable) × Holds table rows.now }
    requires inside { place.at + place.len ≤ length rec.old }
    ensures { (table : AnonTable) → Holds table rows.now → rec.new ≡ hidden_place table place rec.old }
{
    rows.hide_value(&mut rec[place.at..place.at + place.len]);
}

/// Changes the addresses at places of a record.
fn hide_places(rows: &RowTable, places: &[ValuePlace], rec: &mut [u8])
    requires holds { (table : AnonTable) × Holds table rows.now }
    requires inside { AllByRecursion (λ p. p.at + p.len ≤ length rec.old) places.now }
    ensures { (table : AnonTable) → Holds table rows.now → rec.new ≡ hidden_at table places.now rec.old }
{
    for place in places {
        hide_at(rows, *place, rec);
    }
}

/// Changes the value of the field that begins at an octet of a record, if it is a listed address. It answers where the
/// next field begins.
fn hide_field(rows: &RowTable, listed: bool, field: FieldSpec, rec: &mut [u8], at: usize) -> usize
    requires holds { (table : AnonTable) × Holds table rows.now }
    requires inside { at ≤ length rec.old }
    requires whole { value_size field.len (drop at rec.old) ≡ None → ⊥ }
    ensures { (table : AnonTable) → Holds table rows.now → listed ≡ is_listed table field → IsFieldHidden table field at rec.old rec.new result }
{
    let place = value_place(field.len, rec, at);
    let end = place.at + place.len;
    if listed {
        hide_at(rows, place, rec);
    }
    end
}

/// Changes the addresses in listed fields of a record.
fn hide_listed(rows: &RowTable, listed: &[bool], fields: &[FieldSpec], rec: &mut [u8])
    requires holds { (table : AnonTable) × Holds table rows.now × (listed.now ≡ map (is_listed table) fields.now) }
    requires is_record { IsSomeRecord fields.now rec.old }
    ensures { (table : AnonTable) → Holds table rows.now → listed.now ≡ map (is_listed table) fields.now → rec.new ≡ hidden_octets table fields.now rec.old }
{
    let mut at = 0;
    for index in 0..fields.len() {
        at = hide_field(rows, listed[index], fields[index], rec, at);
    }
}

impl PreparedAnonymiser {
    /// Prepares an anonymiser's table for the records of a definition: once for each, since it looks each field up.
    pub fn new(
        alloc: Global,
        table: &AnonTable,
        def: &Definition,
    ) -> Result<PreparedAnonymiser, AllocError>
        ensures { IfOk result (Suits table.now def.now.fields) }
    {
        let _size = def.min_len();
        if def.is_fixed() {
            return Ok(PreparedAnonymiser {
                places: places_of(alloc, table, def.fields())?,
                listed: Vec::new(alloc),
                is_fixed: true,
            });
        }
        Ok(PreparedAnonymiser {
            places: Vec::new(alloc),
            listed: listed(alloc, table, def.fields())?,
            is_fixed: false,
        })
    }

    /// Changes a record of the definition in place, as `hide` does by the table that the rows were made of.
    pub fn hide(&self, rows: &RowTable, def: &Definition, rec: &mut [u8])
        requires suits { (table : AnonTable) × Holds table rows.now × Suits table def.now.fields self.now }
        requires is_record { IsSomeRecord def.now.fields rec.old }
        ensures { (table : AnonTable) → Holds table rows.now → Suits table def.now.fields self.now → rec.new ≡ hidden_octets table def.now.fields rec.old }
    {
        if self.is_fixed {
            hide_places(rows, &self.places, rec);
        } else {
            hide_listed(rows, &self.listed, def.fields(), rec);
        }
    }
}
