// The rows of a table, for a snapshot.
ghost use Rattle.std.specs.Prelude.{◌≡◌, ◌++◌, ℕ, IfOk, OnOk, map};
ghost use Rattle.std.specs.Map.{keys_of};
ghost use Rattle.std.specs.Ordering.{nat_cmp};
ghost use Rattle.std.specs.List.Sorted.{IsStrictlySortedBy};
ghost use Rattle.template_history.specs.Row.{Ascends};
ghost use Rattle.template_history.specs.Versions.{row_of, time_of};
ghost use Rattle.template_manager.specs.Rows.{timed_rows, version_entry};

use col_base::WantOfMemory;
use std::alloc::{AllocError, AllocFailed, Global};
use template_history::{History, Version};
use template_snapshot::Row;

/// Appends a row for each version of an ID.
fn push_versions(rows: &mut Vec<Row>, id: u16, versions: &[Version]) -> Result<(), WantOfMemory>
    ensures { OnOk result (rows.new.items ≡ rows.old.items ++ map (version_entry id) versions.now) }
{
    for version in versions {
        rows.push(Row::new(id, version.t, version.def.clone()?))?;
    }
    Ok(())
}

/// The rows of what came over UDP: of each ID each version that is kept.
pub fn timed_rows(alloc: Global, history: &History) -> Result<Vec<Row>, WantOfMemory>
    ensures are { IfOk result (λ rows. rows.items ≡ timed_rows history.now) }
    ensures ids { IsStrictlySortedBy nat_cmp (keys_of history.now) }
    ensures in_order { (id : ℕ) → Ascends time_of (row_of history.now id) }
{
    let mut rows = Vec::new(alloc);
    for (id, versions) in history.rows() {
        push_versions(&mut rows, *id, versions.all())?;
    }
    Ok(rows)
}
