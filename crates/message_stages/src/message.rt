// What is left of a message.
ghost use Rattle.std.specs.Prelude.{◌≡◌, ◌<◌, ◌++◌, ◌∷◌, [], List, length, IfErr, IfOk, OnOk};
ghost use Rattle.pipeline_message.specs.Items.{IsSound, IsSoundSet};
ghost use Rattle.pipeline_message.specs.declared.message.DataSet.{DataSet};
ghost use Rattle.message_stages.specs.Message.{IsLeftOf};
ghost use Rattle.message_stages.specs.Sets.{octets_now, AreReady, AreSetsLeft};

use crate::rooms::Rooms;
use crate::set::put_left;
use col_base::Octets;
use pipeline_message::{DataMessage, DataSet, Msg};
use stage_chain::{Stage, first_change, some_changes};
use std::alloc::{AllocError, Global};
use std::sync::Arc;

/// A room for copies of the records of a message, if an intermediate changes records.
fn room_for_copies(
    alloc: Global,
    stages: &[Stage],
    message: &DataMessage,
) -> Result<Vec<u8>, AllocError>
    ensures { IfOk result (λ made. made.items ≡ []) }
{
    if some_changes(stages) {
        Vec::with_capacity(alloc, message.octets.len())
    } else {
        Ok(Vec::new(alloc))
    }
}

/// The octets of what is left of a message: its own, or the copies, if an intermediate changes records.
fn octets_left(
    alloc: Global,
    stages: &[Stage],
    message: &DataMessage,
    copies: Vec<u8>,
) -> Result<Arc<Octets>, AllocError>
    ensures { IfOk result (λ made. made.value ≡ octets_now stages.now message.now.octets.value copies.items) }
{
    if some_changes(stages) {
        Ok(Arc::new(alloc, Octets::from_vec(copies))?)
    } else {
        message.octets.clone()
    }
}

/// Takes one set more through all intermediates.
fn put_next(
    alloc: Global,
    stages: &[Stage],
    rooms: &mut Rooms,
    message: &DataMessage,
    set: &DataSet,
    copies: &mut Vec<u8>,
    sets: &mut Vec<DataSet>,
) -> Result<(), usize>
    requires some { 0 < length stages.now }
    requires ready { AreReady stages.now rooms.old }
    requires sound { IsSoundSet message.now.octets.value set.now }
    ensures ready { AreReady stages.now rooms.new }
    ensures ok { OnOk result ((before : List DataSet) → AreSetsLeft stages.now message.now.octets.value before copies.old.items sets.old.items
        → AreSetsLeft stages.now message.now.octets.value (before ++ set.now ∷ []) copies.new.items sets.new.items) }
    ensures err { IfErr result (λ k. k < length stages.now) }
{
    rooms.take(alloc, stages, message, set)?;
    match put_left(alloc, stages, set, rooms.left(), copies, sets) {
        Ok(()) => Ok(()),
        Err(_) => Err(first_change(stages)),
    }
}

/// The sets that are left of a message, behind those of which something is left already.
fn put_sets(
    alloc: Global,
    stages: &[Stage],
    rooms: &mut Rooms,
    message: &DataMessage,
    copies: &mut Vec<u8>,
    sets: &mut Vec<DataSet>,
) -> Result<(), usize>
    requires some { 0 < length stages.now }
    requires ready { AreReady stages.now rooms.old }
    requires sound { IsSound message.now }
    requires none { (copies.old.items ≡ []) × (sets.old.items ≡ []) }
    ensures ready { AreReady stages.now rooms.new }
    ensures ok { OnOk result (AreSetsLeft stages.now message.now.octets.value message.now.sets.items copies.new.items sets.new.items) }
    ensures err { IfErr result (λ k. k < length stages.now) }
{
    for set in &message.sets {
        put_next(alloc, stages, rooms, message, set, copies, sets)?;
    }
    Ok(())
}

/// The message of these sets, and of these copies, if an intermediate changes records.
#[tactic(auto, using(crate::proofs::RoomLemmas::left_room))]
fn message_of(
    alloc: Global,
    stages: &[Stage],
    message: &DataMessage,
    copies: Vec<u8>,
    sets: Vec<DataSet>,
) -> Result<Msg, AllocError>
    requires sound { IsSound message.now }
    requires left { AreSetsLeft stages.now message.now.octets.value message.now.sets.items copies.items sets.items }
    ensures { IfOk result (IsLeftOf stages.now message.now) }
{
    let left = DataMessage {
        session: message.session,
        domain: message.domain,
        export: message.export,
        seq: message.seq,
        octets: octets_left(alloc, stages, message, copies)?,
        sets,
    };
    Ok(Msg::DataMsg(Arc::new(alloc, left)?))
}

/// What is left of a message behind all intermediates. Where memory is wanted it is told which intermediate wants it.
pub fn message_left(
    alloc: Global,
    stages: &[Stage],
    rooms: &mut Rooms,
    message: &DataMessage,
) -> Result<Msg, usize>
    requires some { 0 < length stages.now }
    requires ready { AreReady stages.now rooms.old }
    requires sound { IsSound message.now }
    ensures ready { AreReady stages.now rooms.new }
    ensures ok { IfOk result (IsLeftOf stages.now message.now) }
    ensures err { IfErr result (λ k. k < length stages.now) }
{
    let Ok(mut copies) = room_for_copies(alloc, stages, message) else {
        return Err(first_change(stages));
    };
    let Ok(mut sets) = Vec::with_capacity(alloc, message.sets.len()) else {
        return Err(first_change(stages));
    };
    put_sets(alloc, stages, rooms, message, &mut copies, &mut sets)?;
    match message_of(alloc, stages, message, copies, sets) {
        Ok(left) => Ok(left),
        Err(_) => Err(first_change(stages)),
    }
}
