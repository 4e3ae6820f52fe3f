// Versions by ID: what is done at one ID.
ghost use Rattle.std.specs.Prelude.{◌≡◌, ◌==◌, ℕ, Bool, true, if◌then◌else◌, OnOk, OnErr};
ghost use Rattle.wire_spec.specs.Content.Touch.{Define};
ghost use Rattle.template_spec.specs.Valid.{newer};
ghost use Rattle.template_history.specs.Due.{is_due};
ghost use Rattle.template_history.specs.Row.{kept_from, Ascends, IsBehind, TailIn};
ghost use Rattle.template_history.specs.Versions.{row_of, time_of, version_at};

use crate::due::Due;
use crate::version::Version;
use crate::versions::Versions;
use col_base::WantOfMemory;
use std::alloc::{AllocError, AllocFailed, Global};
use std::collections::BTreeMap;

/// Enters when an ID has a version to forget, beside what was entered before, once one of this export time has come: from
/// the later one of that time and the first version's.
pub fn enter(
    rows: &BTreeMap<u16, Versions>,
    due: &mut Due,
    t: u32,
    id: u16,
) -> Result<(), WantOfMemory>
    ensures entered { OnOk result (IsBehind time_of (λ u. is_due due.new u id) t (row_of rows.now.entries id)) }
    ensures kept { (u k : ℕ) → is_due due.old u k ≡ true → is_due due.new u k ≡ true }
{
    if let Some(row) = rows.get(&id) {
        if let Some(first) = row.first_time() {
            due.enter(first.max(t), id)?;
        }
    }
    Ok(())
}

/// Puts a version into the row of an ID. Where memory is wanted nothing changes.
pub fn put(
    rows: &mut BTreeMap<u16, Versions>,
    alloc: Global,
    id: u16,
    version: Version,
) -> Result<(), WantOfMemory>
    ensures ok { OnOk result ((e k : ℕ) → version_at rows.new.entries e k ≡ newer e k (version_at rows.old.entries e k) (version.t, Define id version.def.value)) }
    ensures in_order { Ascends time_of (row_of rows.old.entries id) → Ascends time_of (row_of rows.new.entries id) }
    ensures tail { OnOk result ((p : ℕ → Bool) → IsBehind time_of p version.t (row_of rows.old.entries id) → TailIn time_of p (row_of rows.old.entries id) → TailIn time_of p (row_of rows.new.entries id)) }
    ensures others { (k : ℕ) → (k ≡ id → ⊥) → row_of rows.new.entries k ≡ row_of rows.old.entries k }
    ensures err { OnErr result (rows.new.entries ≡ rows.old.entries) }
{
    if let Some(row) = rows.get_mut(&id) {
        row.put(version)?;
        return Ok(());
    }
    let mut row = Versions::new(alloc);
    row.put(version)?;
    rows.insert(id, row)?;
    Ok(())
}

/// Of the versions of an ID up to an export time the last alone stays.
pub fn forget(rows: &mut BTreeMap<u16, Versions>, id: u16, before: u32)
    ensures { (k : ℕ) → row_of rows.new.entries k ≡ (if k == id then kept_from time_of before (row_of rows.old.entries k) else row_of rows.old.entries k) }
{
    if let Some(row) = rows.get_mut(&id) {
        row.forget(before);
    }
}
