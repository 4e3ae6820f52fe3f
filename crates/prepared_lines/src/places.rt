// Where the values of a record stand.
ghost use Rattle.std.specs.Prelude.{◌≡◌, ◌+◌, List, ℕ, OnOk, IfOk};
ghost use Rattle.wire_spec.specs.Record.{IsRecord, IsSomeRecord};
ghost use Rattle.prepared_lines.specs.Places.{Stand, fixed_places};

use record_iter::{ValuePlace, value_place};
use std::alloc::{AllocError, Global};
use wire_spec::FieldSpec;

/// Finds the places of a record's values, field by field.
pub fn find_places(
    fields: &[FieldSpec],
    rec: &[u8],
    places: &mut Vec<ValuePlace>,
) -> Result<(), AllocError>
    requires { IsSomeRecord fields.now rec.now }
    ensures { OnOk result ((values : List (List ℕ)) → IsRecord fields.now rec.now values → Stand rec.now places.new.items values) }
{
    places.clear();
    let mut at = 0;
    for field in fields {
        let place = value_place(field.len, rec, at);
        at = place.at + place.len;
        places.push(place)?;
    }
    Ok(())
}

/// The places of the values of each record, where no field varies in length.
pub fn fixed_places(alloc: Global, fields: &[FieldSpec]) -> Result<Vec<ValuePlace>, AllocError>
    ensures { IfOk result (λ places. places.items ≡ fixed_places 0 fields.now) }
{
    let mut places = Vec::with_capacity(alloc, fields.len())?;
    let mut at = 0;
    for field in fields {
        let len = field.len as usize;
        places.push(ValuePlace { at, len })?;
        at = end_of(at, len)?;
    }
    Ok(places)
}

/// A place so many octets further. A record that no address reaches can't be kept in memory either.
fn end_of(at: usize, len: usize) -> Result<usize, AllocError>
    ensures { IfOk result (λ end. end ≡ at + len) }
{
    match at.checked_add(len) {
        Some(end) => Ok(end),
        None => Err(AllocError),
    }
}
