// The places of records that have one length: each is found by adding, and no record is looked at.
ghost use Rattle.std.specs.Prelude.{◌≡◌, ◌<◌, ◌+◌, ◌*◌, ◌^◌, IfOk, length, true};
ghost use Rattle.wire_spec.specs.Size.{are_fixed};
ghost use Rattle.record_places.specs.Places.{ArePlaced, even_places};

use col_base::WantOfMemory;
use pipeline_message::Place;
use std::alloc::{AllocError, Global};
use template_def::Definition;

/// Sets places one behind another.
fn line_up(places: &mut [Place], start: u32, len: u32)
    requires { start + length places.old * len < 2 ^ 32 }
    ensures { places.new ≡ even_places start len (length places.old) }
{
    let mut at = start;
    for place in places.iter_mut() {
        *place = Place { start: at, len };
        at += len;
    }
}

/// So many places of one length, one behind another.
fn lined_up(alloc: Global, start: u32, len: u32, count: usize) -> Result<Vec<Place>, WantOfMemory>
    requires { start + count * len < 2 ^ 32 }
    ensures { IfOk result (λ places. places.items ≡ even_places start len count) }
{
    let mut places = vec![in alloc; Place { start, len }; count]?;
    line_up(&mut places, start, len);
    Ok(places)
}

/// The places of the records of a body that begins at an octet of its message, where no field varies in length. Every body
/// is records then, with padding behind them.
pub fn fixed_places(
    alloc: Global,
    def: &Definition,
    body: &[u8],
    start: u32,
) -> Result<Vec<Place>, WantOfMemory>
    requires fixed { are_fixed def.now.fields ≡ true }
    requires short { start + length body.now < 2 ^ 32 }
    ensures { IfOk result (λ places. ArePlaced def.now.fields body.now start places.items) }
{
    let len = def.min_len();
    let places = lined_up(alloc, start, len, body.len() / len as usize)?;
    Ok(places)
}
