// What waits to be given.
ghost use Rattle.std.specs.Prelude.{◌≡◌, ◌++◌, ◌∷◌, [], IfOk, OnOk};
ghost use Rattle.std.specs.Arc.{arc_value};
ghost use Rattle.arrival_spec.specs.Arrival.Arrival.{Raw};
ghost use Rattle.input_lane.specs.Hands.{Cuts, IsGot, IsHanded, meant};

use crate::came::{Came, InletAnswer};
use col_base::{Octets, SessionKey, WantOfMemory};
use session_table::Arrival;
use std::alloc::Global;
use std::collections::VecDeque;
use std::sync::Arc;
use stream_cut::{CutFault, Cutter};

/// One more waits.
pub fn put(hand: &mut VecDeque<Came>, came: Came) -> Result<(), WantOfMemory>
    ensures { OnOk result (hand.new.items ≡ hand.old.items ++ came ∷ []) }
{
    hand.push_back(came)?;
    Ok(())
}

/// One more message waits.
pub fn put_message(
    alloc: Global,
    hand: &mut VecDeque<Came>,
    key: SessionKey,
    message: Octets,
) -> Result<(), WantOfMemory>
    ensures { OnOk result (meant hand.new.items ≡ meant hand.old.items ++ Raw key message ∷ []) }
{
    let message = Arc::new(alloc, message)?;
    hand.push_back(Came::Raw(key, message))?;
    Ok(())
}

/// What waited is given.
pub fn handed(came: Came) -> InletAnswer
    ensures handed { IsHanded came result }
    ensures got { IsGot result }
{
    match came {
        Came::SessionOpen(key, transport) => InletAnswer::Got(Arrival::SessionOpen(key, transport)),
        Came::Raw(key, octets) => InletAnswer::Got(Arrival::Raw(key, octets)),
        Came::SessionClose(key) => InletAnswer::Got(Arrival::SessionClose(key)),
        Came::Periodic(input, seconds) => InletAnswer::Got(Arrival::Periodic(input, seconds)),
    }
}

/// All messages wait that are whole. Whether no further one can begin is answered.
pub fn cut(
    alloc: Global,
    cutter: &mut Cutter,
    key: SessionKey,
    hand: &mut VecDeque<Came>,
) -> Result<bool, WantOfMemory>
    ensures { IfOk result (Cuts key cutter.old cutter.new hand.old.items hand.new.items) }
{
    loop {
        match cutter.next() {
            Ok(Some(message)) => put_message(alloc, hand, key, message)?,
            Ok(None) => return Ok(false),
            Err(CutFault::Broken) => return Ok(true),
            Err(CutFault::NoMemory) => return Err(WantOfMemory),
        }
    }
}
