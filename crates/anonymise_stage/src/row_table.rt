// The rows of a table, prepared so that the best one is found without going through them.
ghost use Rattle.std.specs.Prelude.{◌≡◌, ◌≤◌, IfOk, IfSome, length, map, if◌then◌else◌};
ghost use Rattle.std.specs.Option.{option_copied};
ghost use Rattle.std.specs.List.{AllByRecursion};
ghost use Rattle.text_spec.specs.Number.{number_of};
ghost use Rattle.config_spec.specs.declared.tables.AnonTable.{AnonTable};
ghost use Rattle.config_spec.specs.Form.{IsAnonRow, IsAnonymiser};
ghost use Rattle.act_spec.specs.Anonymise.{best_row, changed_by, is_address};
ghost use Rattle.anonymise_stage.specs.Segments.{AreSegments, best_at, row_at, row_of};
ghost use Rattle.anonymise_stage.specs.Table.{Holds, changed_to};

use crate::prepared_row::{PreparedRow, number_of, octets_are_small};
use crate::segment::{Segment, find, segments};
use address_bits::{keep_bits, put_bits};
use config_spec::{AnonRow, AnonTable};
use std::alloc::{AllocError, Global};

/// The rows of an anonymiser's table, made once for each table. The addresses of each length are cut into segments, over
/// each of which one row decides, so that one search finds the best row, however many there are and of however many
/// lengths.
#[derive(Drop)]
pub struct RowTable {
    rows: Vec<PreparedRow>,
    four: Vec<Segment>,
    sixteen: Vec<Segment>,
    cut4: u8,
    cut6: u8,
}

/// Copies of rows, with their ranges.
fn prepare(alloc: Global, rows: &[AnonRow]) -> Result<Vec<PreparedRow>, AllocError>
    requires { AllByRecursion IsAnonRow rows.now }
    ensures { IfOk result (λ prepared. map row_of prepared.items ≡ rows.now) }
{
    let mut prepared = Vec::new(alloc);
    for row in rows {
        prepared.push(PreparedRow::new(row)?)?;
    }
    Ok(prepared)
}

/// The row at a place.
fn row_at(rows: &[PreparedRow], place: Option<usize>) -> Option<&PreparedRow>
    ensures { option_copied result ≡ row_at rows.now place }
{
    match place {
        Some(place) => rows.get(place),
        None => None,
    }
}

/// The row that decides over an address.
fn best_row<'a>(
    rows: &'a [PreparedRow],
    segments: &[Segment],
    value: &[u8],
) -> Option<&'a PreparedRow>
    requires address { length value.now ≤ 16 }
    requires segments { AreSegments (length value.now) rows.now segments.now }
    ensures is { option_copied result ≡ best_at (length value.now) (number_of value.now) rows.now }
    ensures fits { IfSome result (λ row. length row.now.row.to ≡ length value.now) }
{
    row_at(rows, find(segments, number_of(value)))
}

/// Changes an address, of which so many bits stay where no row agrees.
fn hide_address(rows: &[PreparedRow], segments: &[Segment], bits: u8, value: &mut [u8])
    requires address { length value.old ≤ 16 }
    requires segments { AreSegments (length value.old) rows.now segments.now }
    ensures { value.new ≡ changed_to bits (best_row (map row_of rows.now) value.old) value.old }
{
    octets_are_small(value);
    match best_row(rows, segments, value) {
        Some(best) => put_bits(best.row.from.bits, best.row.to.as_slice(), value),
        None => keep_bits(bits, value),
    }
}

impl RowTable {
    pub fn new(alloc: Global, table: &AnonTable) -> Result<RowTable, AllocError>
        requires { IsAnonymiser table.now }
        ensures { IfOk result (Holds table.now) }
    {
        let rows = prepare(alloc, table.rows.as_slice())?;
        let four = segments(alloc, &rows, 4)?;
        let sixteen = segments(alloc, &rows, 16)?;
        Ok(RowTable {
            rows,
            four,
            sixteen,
            cut4: table.cut4,
            cut6: table.cut6,
        })
    }

    /// Changes the value of a listed field, if it is an address.
    pub fn hide_value(&self, value: &mut [u8])
        requires { (table : AnonTable) × Holds table self.now }
        ensures { (table : AnonTable) → Holds table self.now → value.new ≡ (if is_address value.old then changed_by table (best_row table.rows value.old) value.old else value.old) }
    {
        match value.len() {
            4 => hide_address(&self.rows, &self.four, self.cut4, value),
            16 => hide_address(&self.rows, &self.sixteen, self.cut6, value),
            _ => {}
        }
    }
}
