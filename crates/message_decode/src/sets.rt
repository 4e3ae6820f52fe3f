// The sets of a message, one after another.
ghost use Rattle.std.specs.Prelude.{◌≡◌, [], ◌∷◌, ℕ, List, Some, false, map, IfOk, OnOk};
ghost use Rattle.std.specs.List.{AllByRecursion};
ghost use Rattle.wire_spec.specs.Content.{Part, Touch};
ghost use Rattle.template_spec.specs.Late.{is_late};
ghost use Rattle.template_spec.specs.Valid.{valid};
ghost use Rattle.ipfix_reader.specs.Octets.{octets_of};
ghost use Rattle.ipfix_reader.specs.Walk.{RawSays, StandsIn};
ghost use Rattle.run_spec.specs.Outcome.{by_definition, by_records, SkipReason};
ghost use Rattle.run_spec.specs.Outcome.Outcome.{Skipped};
ghost use Rattle.pipeline_message.specs.Items.{record_at, IsRecordAt};
ghost use Rattle.arrival_spec.specs.Settings.{Settings};
ghost use Rattle.template_manager.specs.Snapshots.{KeepsSettings};
ghost use Rattle.message_decode.specs.Steps.{Adds, Decodes, Stands, Takes};

use crate::counts::SetCounts;
use crate::decoded::Decoded;
use crate::due::{due_first, due_later};
use crate::touches::take_touches;
use col_base::WantOfMemory;
use ipfix_reader::{Header, Message, RawSet, SetContent};
use pipeline_message::{DataSet, Place};
use record_places::places;
use std::alloc::Global;
use std::sync::Arc;
use template_def::Definition;
use template_manager::{Manager, Resolved};

/// One set more was skipped.
fn skip(found: &mut Decoded)
    ensures { (octets : List ℕ) (reason : SkipReason) → Adds octets (Skipped reason) found.old found.new }
{
    found.counts.skipped = found.counts.skipped.saturating_add(1);
    found.due = None;
}

/// One set more was found, if it has records.
fn put(
    found: &mut Decoded,
    def: &Arc<Definition>,
    template: u16,
    places: Vec<Place>,
) -> Result<(), WantOfMemory>
    ensures { OnOk result ((octets : List ℕ) → AllByRecursion (IsRecordAt def.now.value.fields octets) places.items
        → Adds octets (by_records template def.now.value (Some (map (record_at def.now.value.fields octets) places.items))) found.old found.new) }
{
    if places.is_empty() {
        return Ok(());
    }
    let records = places.len() as u64;
    found.counts.records = found.counts.records.saturating_add(records);
    found.due = due_later(found.due, records);
    found.sets.push(DataSet {
        def: def.clone()?,
        template,
        places,
    })?;
    Ok(())
}

/// Takes a data set by its definition.
fn take_records(
    alloc: Global,
    set: RawSet<'_>,
    def: &Arc<Definition>,
    found: &mut Decoded,
) -> Result<(), WantOfMemory>
    ensures { OnOk result ((octets : List ℕ) → StandsIn octets set.entry → Adds octets (by_definition set.entry.id set.entry.body.now (Some def.now.value)) found.old found.new) }
{
    let _least = def.min_len();
    match places(alloc, def, set.body, set.at + 4)? {
        Some(places) => put(found, def, set.id, places),
        None => {
            skip(found);
            Ok(())
        }
    }
}

/// Takes a data set of a message of this export time by the definition that is valid for it.
fn take_data(
    alloc: Global,
    set: RawSet<'_>,
    export: u32,
    manager: &Manager,
    found: &mut Decoded,
) -> Result<(), WantOfMemory>
    requires { is_late manager.now.transport manager.now.life manager.now.greatest export ≡ false }
    ensures { OnOk result ((octets : List ℕ) → StandsIn octets set.entry → (settings : Settings) (past : List (ℕ × Touch)) → Stands settings past manager.now
        → Adds octets (by_definition set.entry.id set.entry.body.now (valid settings.transport settings.life past export set.entry.id)) found.old found.new) }
{
    match manager.resolve(export, set.id) {
        Resolved::Template(def) => take_records(alloc, set, def, found),
        Resolved::NoTemplate => {
            skip(found);
            Ok(())
        }
    }
}

/// Takes a set of a message of this export time.
fn take_set(
    alloc: Global,
    set: RawSet<'_>,
    export: u32,
    manager: &mut Manager,
    found: &mut Decoded,
) -> Result<(), WantOfMemory>
    requires { is_late manager.old.transport manager.old.life manager.old.greatest export ≡ false }
    ensures { OnOk result ((part : Part) × RawSays set.entry part × KeepsSettings manager.old manager.new
        × ((octets : List ℕ) → StandsIn octets set.entry → Takes export octets (part ∷ []) manager.old manager.new found.old found.new)) }
{
    match set.content() {
        SetContent::Templates(_) => { take_touches(alloc, set, export, manager, &mut found.counts) }
        SetContent::Data(_) => take_data(alloc, set, export, manager, found),
        SetContent::Reserved => {
            skip(found);
            Ok(())
        }
    }
}

/// Takes the sets of a message that is taken, in order: what the manager of its session and domain stands for then is what
/// it stood for and the template records of the message. Where memory is wanted some of them may be taken.
pub fn decode(
    alloc: Global,
    message: Message<'_>,
    header: Header,
    manager: &mut Manager,
) -> Result<Decoded, WantOfMemory>
    requires { is_late manager.old.transport manager.old.life manager.old.greatest header.export ≡ false }
    ensures { IfOk result (λ found. Decodes header.export (octets_of message.entry) header.seq manager.old manager.new found) }
{
    let mut found = Decoded {
        sets: Vec::new(alloc),
        counts: SetCounts::none(),
        due: due_first(header.seq),
    };
    for set in message.sets() {
        take_set(alloc, set, header.export, manager, &mut found)?;
    }
    Ok(found)
}
