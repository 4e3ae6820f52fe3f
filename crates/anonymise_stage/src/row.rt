// How one address is changed.
ghost use Rattle.std.specs.Prelude.{◌≡◌, ◌==◌, IfSome, length, if◌then◌else◌};
ghost use Rattle.std.specs.List.{AllByRecursion};
ghost use Rattle.std.specs.Option.{option_copied};
ghost use Rattle.config_spec.specs.Form.{IsAnonRow, IsAnonymiser};
ghost use Rattle.act_spec.specs.Anonymise.{best_row, bits_kept, changed_by, is_address, is_better};

use address_bits::{agrees, keep_bits, put_bits};
use config_spec::{AnonRow, AnonTable};

/// Whether a row has more bits than the one found.
fn is_better(found: Option<&AnonRow>, row: &AnonRow) -> bool
    ensures { result ≡ is_better (option_copied found.entry) row.now }
{
    match found {
        Some(found) => found.from.bits < row.from.bits,
        None => true,
    }
}

/// Of the rows that agree with a value the one with the most bits, the first of equals.
fn best_row<'a>(rows: &'a [AnonRow], value: &[u8]) -> Option<&'a AnonRow>
    requires { AllByRecursion IsAnonRow rows.now }
    ensures is { option_copied result ≡ best_row rows.now value.now }
    ensures fits { IfSome result (λ row. length row.now.to ≡ length value.now) }
{
    let mut found: Option<&AnonRow> = None;
    for row in rows {
        if agrees(&row.from, value) && is_better(found, row) {
            found = Some(row);
        }
    }
    found
}

/// How many bits of an address stay where no row agrees.
fn bits_kept(table: &AnonTable, octets: usize) -> u8
    ensures { result ≡ (if octets == 4 then table.now.cut4 else table.now.cut6) }
{
    if octets == 4 { table.cut4 } else { table.cut6 }
}

/// Changes the value of a listed field, if it is an address.
pub fn hide_value(table: &AnonTable, value: &mut [u8])
    requires { IsAnonymiser table.now }
    ensures { value.new ≡ (if is_address value.old then changed_by table.now (best_row table.now.rows value.old) value.old else value.old) }
{
    if value.len() != 4 && value.len() != 16 {
        return;
    }
    match best_row(table.rows.as_slice(), value) {
        Some(row) => put_bits(row.from.bits, row.to.as_slice(), value),
        None => keep_bits(bits_kept(table, value.len()), value),
    }
}
