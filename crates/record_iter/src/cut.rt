// Cuts a body into records, and a record into fields.
ghost use Rattle.std.specs.Prelude.{◌≡◌, IfOk, MatchResult};
ghost use Rattle.wire_spec.specs.Record.{AreSomeRecords, IsSomeRecord};
ghost use Rattle.record_iter.specs.Left.{records_left, fields_of_each, fields_left, octets_left, place_of};

use crate::field_walk::Fields;
use crate::record_walk::{NotRecords, Records, are_records};
use template_def::Definition;

/// Goes over the records of a body. NotRecords comes exactly where the body isn't records of the definition with
/// padding behind them. Where no field varies in length it never comes, and nothing is looked at.
pub fn records<'a>(def: &'a Definition, body: &'a [u8]) -> Result<Records<'a>, NotRecords>
    ensures are { MatchResult result (λ _. AreSomeRecords def.now.fields body.now) (λ _. AreSomeRecords def.now.fields body.now → ⊥) }
    ensures left { IfOk result (λ records. (fields_of_each records ≡ def.now.fields) × (records_left records ≡ body.now)) }
{
    let least = def.min_len() as usize;
    if def.is_fixed() {
        return Ok(Records::new(def, body));
    }
    if !are_records(def.fields(), least, body) {
        return Err(NotRecords);
    }
    Ok(Records::new(def, body))
}

/// Goes over the fields of one record.
pub fn fields<'a>(def: &'a Definition, rec: &'a [u8]) -> Fields<'a>
    requires { IsSomeRecord def.now.fields rec.now }
    ensures fields { fields_left result ≡ def.now.fields }
    ensures octets { octets_left result ≡ rec.now }
    ensures place { place_of result ≡ 0 }
{
    Fields::new(def.fields(), rec)
}
