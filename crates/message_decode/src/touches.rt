// Template records, taken by the manager of their session and domain (RFC 7011, sections 3.4 and 8).
ghost use Rattle.std.specs.Prelude.{◌≡◌, ◌⊎◌, ◌∷◌, [], List, false, IfOk, OnOk};
ghost use Rattle.wire_spec.specs.Content.{Touch as Touched};
ghost use Rattle.wire_spec.specs.Content.Part.{Touches};
ghost use Rattle.template_spec.specs.Late.{is_late};
ghost use Rattle.template_manager.specs.Kinds.{touch_of};
ghost use Rattle.ipfix_reader.specs.Walk.{RawSays, touch_by};
ghost use Rattle.message_decode.specs.Steps.{TakesTouches, counted_as};

use crate::counts::SetCounts;
use col_base::WantOfMemory;
use ipfix_reader::{RawSet, RawTemplate, RawTouch, template_records};
use std::alloc::Global;
use std::sync::Arc;
use template_def::Definition;
use template_manager::{Manager, Taken, Touch};

/// What a template record does, with its definition if it has one.
fn read_touch(alloc: Global, raw: RawTemplate<'_>) -> Result<Touch, WantOfMemory>
    ensures { IfOk result (λ touch. touch_of touch ≡ touch_by raw.entry) }
{
    match raw.touch() {
        RawTouch::Define(raw) => {
            let definition = Definition::read(alloc, raw.kind, raw.scope, raw.specs)?;
            let definition = Arc::new(alloc, definition)?;
            Ok(Touch::Define(raw.id, definition))
        }
        RawTouch::Withdraw(id) => Ok(Touch::Withdraw(id)),
        RawTouch::WithdrawAll(kind) => Ok(Touch::WithdrawAll(kind)),
    }
}

/// One more count of what became of a template record.
fn count(taken: Taken, counts: &mut SetCounts)
    ensures { counts.new ≡ counted_as taken counts.old }
{
    match taken {
        Taken::Redefined => counts.redefined = counts.redefined.saturating_add(1),
        Taken::Ignored => counts.ignored = counts.ignored.saturating_add(1),
        Taken::New | Taken::Same | Taken::Withdrawn => {}
    }
}

/// Takes what a template record does.
fn take_touch(
    alloc: Global,
    raw: RawTemplate<'_>,
    export: u32,
    manager: &mut Manager,
    counts: &mut SetCounts,
) -> Result<(), WantOfMemory>
    requires { is_late manager.old.transport manager.old.life manager.old.greatest export ≡ false }
    ensures { OnOk result (TakesTouches export (touch_by raw.entry ∷ []) manager.old manager.new counts.old counts.new) }
{
    let touch = read_touch(alloc, raw)?;
    let taken = manager.take(touch, export)?;
    count(taken, counts);
    Ok(())
}

/// Takes the template records of a set, in order.
pub fn take_touches(
    alloc: Global,
    set: RawSet<'_>,
    export: u32,
    manager: &mut Manager,
    counts: &mut SetCounts,
) -> Result<(), WantOfMemory>
    requires records { (set.id ≡ 2) ⊎ (set.id ≡ 3) }
    requires taken { is_late manager.old.transport manager.old.life manager.old.greatest export ≡ false }
    ensures { OnOk result ((touches : List Touched) × RawSays set.entry (Touches touches) × TakesTouches export touches manager.old manager.new counts.old counts.new) }
{
    for raw in template_records(set) {
        take_touch(alloc, raw, export, manager, counts)?;
    }
    Ok(())
}
