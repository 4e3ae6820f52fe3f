// What is left of a set, put behind the sets before it.
ghost use Rattle.std.specs.Prelude.{◌≡◌, ◌++◌, ◌∷◌, [], ℕ, List, map, IfOk, OnOk};
ghost use Rattle.pipeline_message.specs.declared.message.DataSet.{DataSet};
ghost use Rattle.stage_chain.specs.Left.{AreLeftIn};
ghost use Rattle.message_stages.specs.Sets.{AreSetsLeft, moved};

use pipeline_message::{DataSet, Place};
use stage_chain::{Left, Stage};
use std::alloc::{AllocError, Global};

/// Places of octets that stand behind so many others.
fn moved(alloc: Global, places: &[Place], by: u32) -> Result<Vec<Place>, AllocError>
    ensures { IfOk result (λ made. made.items ≡ map (moved by) places.now) }
{
    let mut made = Vec::with_capacity(alloc, places.len())?;
    for place in places {
        let Some(start) = by.checked_add(place.start) else {
            return Err(AllocError);
        };
        made.push(Place {
            start,
            len: place.len,
        })?;
    }
    Ok(made)
}

/// Puts what is left of a set behind the sets that are left, and its copies behind theirs, if records are copied. A set of
/// which nothing is left goes.
pub fn put_left(
    alloc: Global,
    stages: &[Stage],
    set: &DataSet,
    left: &Left,
    copies: &mut Vec<u8>,
    sets: &mut Vec<DataSet>,
) -> Result<(), AllocError>
    ensures { OnOk result ((octets : List ℕ) (before : List DataSet) → AreLeftIn stages.now set.now.def.value octets set.now.places.items left.now
        → AreSetsLeft stages.now octets before copies.old.items sets.old.items → AreSetsLeft stages.now octets (before ++ set.now ∷ []) copies.new.items sets.new.items) }
{
    if left.places().is_empty() {
        return Ok(());
    }
    let Ok(start) = u32::try_from(copies.len()) else {
        return Err(AllocError);
    };
    let places = moved(alloc, left.places(), start)?;
    copies.extend_from_slice(left.octets(stages, &[]))?;
    sets.push(DataSet {
        def: set.def.clone()?,
        template: set.template,
        places,
    })?;
    Ok(())
}
