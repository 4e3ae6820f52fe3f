// The first fault of the tables of a description.
ghost use Rattle.std.specs.Prelude.{◌≡◌, [], Some, None, OnOk, IfErr, map};
ghost use Rattle.toml.specs.View.{view, table_view};
ghost use Rattle.config_spec.specs.First.{IsMemory};
ghost use Rattle.config_spec.specs.Faults.{is_one_table, top_kind, version_of, tables_fault};

use crate::fits::least_at;
use crate::rows::rows_of;
use crate::tables::{Whole, arrays_fit};
use crate::tree::items_at;
use crate::walk::own_fits;
use crate::words::children_of;
use config_spec::{ConfFault, Key, TableKind, Version};
use std::alloc::Global;
use toml::{Table, Value};

fn is_one_table(items: &[Value]) -> bool
    ensures { result ≡ is_one_table (map view items.now) }
{
    match items {
        [item] => item.is_table(),
        _ => false,
    }
}

/// The kind of the top table: with a single input it has no key for an order log.
#[tactic(auto, unfolding(config_spec::specs::Faults::top_kind))]
fn top_kind(table: &Table) -> TableKind
    ensures { result ≡ top_kind (table_view table.now) }
{
    if is_one_table(items_at(Key::Input, table)) {
        TableKind::SingleTop
    } else {
        TableKind::Top
    }
}

/// The versions, from 1 on.
const VERSIONS: [Version; 1] = [Version::One];

/// The version that a top table names; where it names none, which is a fault, the first.
#[tactic(auto, using(config_spec::proofs::FirstLemmas::same_version))]
pub fn version_of(table: &Table) -> Version
    ensures { result ≡ version_of (table_view table.now) }
{
    let place = least_at(Key::Version, table).saturating_sub(1) as usize;
    match VERSIONS.get(place) {
        Some(version) => *version,
        None => Version::One,
    }
}

/// Refuses a description with a fault in its tables.
#[tactic(auto, unfolding(config_spec::specs::Faults::tables_fault))]
pub fn tables_fit(alloc: Global, table: &Table) -> Result<(), ConfFault>
    ensures ok { OnOk result (tables_fault (table_view table.now) ≡ None) }
    ensures err { IfErr result (λ fault. ¬ (IsMemory fault) → tables_fault (table_view table.now) ≡ Some fault) }
{
    let version = version_of(table);
    let kind = top_kind(table);
    own_fits(alloc, "", table, rows_of(version, kind))?;
    let whole = Whole { version };
    arrays_fit(alloc, &whole, "", children_of(version, kind), table)
}
