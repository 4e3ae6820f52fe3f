// The sets of a message, where their records stand.
ghost use Rattle.std.specs.Prelude.{IfSome};
ghost use Rattle.pipeline_message.specs.Items.{IsSound};
ghost use Rattle.file_texts.specs.Texts.{AreSetsOf};

use file_output::PlacedSet;
use pipeline_message::DataMessage;
use std::alloc::Global;

/// The sets of a message, their records where they stand. None where memory is wanted: 2^32 records of a set want more than
/// there is.
pub fn sets_of(alloc: Global, message: &DataMessage) -> Option<Vec<PlacedSet<'_>>>
    requires { IsSound message.now }
    ensures { IfSome result (λ sets. AreSetsOf message.now sets.items) }
{
    let octets = message.octets.as_slice();
    let Ok(mut sets) = Vec::with_capacity(alloc, message.sets.len()) else {
        return None;
    };
    for set in message.sets.as_slice() {
        let Some(placed) = PlacedSet::new(&set.def, octets, set.places.as_slice()) else {
            return None;
        };
        match sets.push(placed) {
            Ok(()) => {}
            Err(_) => return None,
        }
    }
    Some(sets)
}
