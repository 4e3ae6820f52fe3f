// What is left of a set behind the intermediates.
//
// The places of a set's records may be any, even one over the other, so that none can be changed where it stands without a
// look at the others. So each record that comes to an anonymiser is copied behind those before it, and changed there: each
// octet of a message is copied once at most, and a message of which nothing is changed is not copied at all.
ghost use Rattle.std.specs.Prelude.{◌≡◌, ◌≤◌, ◌<◌, ◌+◌, ◌++◌, ◌∷◌, [], ℕ, List, false, if◌then◌else◌, IfErr, OnOk, length, take, drop};
ghost use Rattle.std.specs.List.{AllByRecursion, list_any};
ghost use Rattle.wire_spec.specs.Record.{IsSomeRecord};
ghost use Rattle.run_spec.specs.Records.{record_of};
ghost use Rattle.pipeline_message.specs.declared.message.Place.{Place};
ghost use Rattle.pipeline_message.specs.Items.{IsRecordAt};
ghost use Rattle.stage_chain.specs.Behind.{changes, records_behind, AreLeft};
ghost use Rattle.stage_chain.specs.Suits.{AreSuited};

use crate::pass::{all_keep, last_passes_all};
use crate::stage::{PreparedStage, Stage};
use pipeline_message::{Place, octets_at};
use std::alloc::{AllocError, Global};
use template_def::Definition;

/// What is left of a set: the places of its records, and copies of the records where an intermediate changes them.
#[derive(Drop)]
pub struct Left {
    places: Vec<Place>,
    octets: Vec<u8>,
}

/// Whether some intermediate changes records.
pub fn some_changes(stages: &[Stage]) -> bool
    ensures { result ≡ list_any changes stages.now }
{
    stages.iter().any(|stage| stage.changes())
}

/// The place of the first intermediate that changes records, or of the first of all.
#[cold]
pub fn first_change(stages: &[Stage]) -> usize
    requires { 0 < length stages.now }
    ensures { result < length stages.now }
{
    match stages.iter().position(|stage| stage.changes()) {
        Some(first) => first,
        None => 0,
    }
}

/// Keeps the places of the records that all intermediates keep, none of which changes records.
fn keep_places(
    stages: &[Stage],
    prepared: &[PreparedStage],
    def: &Definition,
    octets: &[u8],
    places: &[Place],
    kept: &mut Vec<Place>,
) -> Result<(), AllocError>
    requires suit { AreSuited stages.now def.now.fields prepared.now }
    requires none { list_any changes stages.now ≡ false }
    requires sound { AllByRecursion (IsRecordAt def.now.fields octets.now) places.now }
    ensures { OnOk result (AreLeft stages.now def.now octets.now places.now octets.now kept.new.items) }
{
    kept.clear();
    for place in places {
        if all_keep(stages, prepared, def, octets_at(octets, *place)) {
            kept.push(*place)?;
        }
    }
    Ok(())
}

/// Whether the record at the end of octets passes all intermediates, which may change it.
fn change_last(
    stages: &[Stage],
    prepared: &[PreparedStage],
    def: &Definition,
    octets: &mut Vec<u8>,
    at: usize,
) -> bool
    requires suit { AreSuited stages.now def.now.fields prepared.now }
    requires inside { at ≤ length octets.old.items }
    requires is_record { IsSomeRecord def.now.fields (drop at octets.old.items) }
    ensures left { records_behind stages.now def.now (record_of def.now.fields (drop at octets.old.items) ∷ []) ≡ (if result then record_of def.now.fields (drop at octets.new.items) ∷ [] else []) }
    ensures is_record { IsSomeRecord def.now.fields (drop at octets.new.items) }
    ensures front { take at octets.new.items ≡ take at octets.old.items }
    ensures long { length octets.new.items ≡ length octets.old.items }
{
    last_passes_all(stages, prepared, def, octets.as_mut_slice(), at)
}

impl Left {
    ghost use Rattle.stage_chain.specs.Left.{AreLeftIn, octets_behind};

    /// Nothing. It takes no memory.
    pub fn new(alloc: Global) -> Left {
        Left {
            places: Vec::new(alloc),
            octets: Vec::new(alloc),
        }
    }

    /// Copies a record behind those before it, and keeps what the intermediates make of it.
    fn change_record(
        &mut self,
        stages: &[Stage],
        prepared: &[PreparedStage],
        def: &Definition,
        octets: &[u8],
        place: Place,
    ) -> Result<(), AllocError>
        requires suit { AreSuited stages.now def.now.fields prepared.now }
        requires is_record { IsRecordAt def.now.fields octets.now place }
        ensures { OnOk result ((places : List Place) → AreLeft stages.now def.now octets.now places self.old.octets.items self.old.places.items
            → AreLeft stages.now def.now octets.now (places ++ place ∷ []) self.new.octets.items self.new.places.items) }
    {
        let at = self.octets.len();
        let Ok(start) = u32::try_from(at) else {
            return Err(AllocError);
        };
        self.octets.extend_from_slice(octets_at(octets, place))?;
        if change_last(stages, prepared, def, &mut self.octets, at) {
            self.places.push(Place {
                start,
                len: place.len,
            })?;
        } else {
            self.octets.truncate(at);
        }
        Ok(())
    }

    /// Copies the records of a set, and keeps what the intermediates make of them.
    fn change_records(
        &mut self,
        stages: &[Stage],
        prepared: &[PreparedStage],
        def: &Definition,
        octets: &[u8],
        places: &[Place],
    ) -> Result<(), AllocError>
        requires suit { AreSuited stages.now def.now.fields prepared.now }
        requires sound { AllByRecursion (IsRecordAt def.now.fields octets.now) places.now }
        ensures { OnOk result (AreLeft stages.now def.now octets.now places.now self.new.octets.items self.new.places.items) }
    {
        self.places.clear();
        self.octets.clear();
        for place in places {
            self.change_record(stages, prepared, def, octets, *place)?;
        }
        Ok(())
    }

    /// Takes a set of records of a definition, which stand at places of the octets of a message, through all intermediates: in
    /// place of what was left of the set before. Where memory is wanted it is told which intermediate wants it, by its place.
    /// Octets above 2^32 want more than there is.
    pub fn take(
        &mut self,
        stages: &[Stage],
        prepared: &[PreparedStage],
        def: &Definition,
        octets: &[u8],
        places: &[Place],
    ) -> Result<(), usize>
        requires some { 0 < length stages.now }
        requires suit { AreSuited stages.now def.now.fields prepared.now }
        requires sound { AllByRecursion (IsRecordAt def.now.fields octets.now) places.now }
        ensures ok { OnOk result (AreLeftIn stages.now def.now octets.now places.now self.new) }
        ensures err { IfErr result (λ stage. stage < length stages.now) }
    {
        if some_changes(stages) {
            return match self.change_records(stages, prepared, def, octets, places) {
                Ok(()) => Ok(()),
                Err(_) => Err(first_change(stages)),
            };
        }
        match keep_places(stages, prepared, def, octets, places, &mut self.places) {
            Ok(()) => Ok(()),
            Err(_) => Err(0),
        }
    }

    /// The octets in which the records that are left stand: those of the message, which are given, where no intermediate
    /// changes records.
    pub fn octets<'a>(&'a self, stages: &[Stage], octets: &'a [u8]) -> &'a [u8]
        ensures { result.now ≡ octets_behind stages.now octets.now self.now }
    {
        if some_changes(stages) {
            &self.octets
        } else {
            octets
        }
    }

    /// The places of the records that are left.
    pub fn places(&self) -> &[Place]
        ensures { result.now ≡ self.now.places.items }
    {
        &self.places
    }
}
