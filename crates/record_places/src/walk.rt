// The places of a body's records.
ghost use Rattle.std.specs.Prelude.{◌≡◌, ◌<◌, ◌+◌, ◌^◌, IfOk, length};
ghost use Rattle.record_iter.specs.Left.{fields_of_each, records_left};
ghost use Rattle.wire_spec.specs.Record.{IsRecords, AreSomeRecords};
ghost use Rattle.record_places.specs.Places.{ArePlaced, IsPlaced};

use crate::even::fixed_places;
use col_base::WantOfMemory;
use pipeline_message::Place;
use record_iter::{Records, records};
use std::alloc::{AllocError, AllocFailed, Global};
use template_def::Definition;

/// How many records there are.
fn count(walk: Records<'_>) -> usize {
    let mut count: usize = 0;
    for _ in walk {
        count = count.saturating_add(1);
    }
    count
}

/// For how many records there is to be room: for as many as there are.
fn room(def: &Definition, body: &[u8]) -> usize {
    match records(def, body) {
        Ok(walk) => count(walk),
        Err(_) => 0,
    }
}

/// The places of the records of a body that begins at an octet of its message, record by record. None exactly where the body
/// isn't records of the definition with padding behind them.
fn walked_places(
    alloc: Global,
    def: &Definition,
    body: &[u8],
    start: u32,
) -> Result<Option<Vec<Place>>, WantOfMemory>
    requires { start + length body.now < 2 ^ 32 }
    ensures { IfOk result (IsPlaced def.now.fields body.now start) }
{
    let room = room(def, body);
    let Ok(walk) = records(def, body) else {
        return Ok(None);
    };
    let mut places = Vec::with_capacity(alloc, room)?;
    let mut at = start;
    for record in walk {
        let len = record.len() as u32;
        places.push(Place { start: at, len })?;
        at += len;
    }
    Ok(Some(places))
}

/// The places of the records of a body that begins at an octet of its message. None exactly where the body isn't records
/// of the definition with padding behind them.
pub fn places(
    alloc: Global,
    def: &Definition,
    body: &[u8],
    start: u32,
) -> Result<Option<Vec<Place>>, WantOfMemory>
    requires { start + length body.now < 2 ^ 32 }
    ensures { IfOk result (IsPlaced def.now.fields body.now start) }
{
    if !def.is_fixed() {
        return walked_places(alloc, def, body, start);
    }
    let places = fixed_places(alloc, def, body, start)?;
    Ok(Some(places))
}
