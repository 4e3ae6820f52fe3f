// The first fault of tables.
ghost use Rattle.std.specs.Prelude.{◌≡◌, ◌++◌, ◌∷◌, [], Some, None, Ok, Err, OnOk, IfOk, IfErr, List, ℕ, Option, map, string_bytes};
ghost use Rattle.std.specs.Fmt.{decimal};
ghost use Rattle.toml.specs.Data.{Members};
ghost use Rattle.toml.specs.View.{view, table_view};
ghost use Rattle.config_spec.specs.declared.key.TableSort.{TableSort};
ghost use Rattle.config_spec.specs.declared.fault.ConfFault.{ConfFault};
ghost use Rattle.config_spec.specs.First.{IsMemory};
ghost use Rattle.config_spec.specs.Keys.{word_of, kinds_of};
ghost use Rattle.config_spec.specs.Faults.{below, strange, kind_named, kind_of, table_fault, items_fault, array_fault, arrays_fault, nested_fault, whole_fault};

use crate::rows::rows_of;
use crate::tree::{items_at, value_at};
use crate::walk::{own_fits, path_of};
use crate::words::{children_of, choice_of, kind_word, kinds_of, word_of};
use col_base::Text;
use config_spec::{Choice, ConfFault, Key, TableKind, TableSort, Version};
use std::alloc::{AllocError, Global};
use toml::{Table, Value};

/// The kind of a word.
pub fn kind_named(kinds: &[TableKind], word: &str) -> Option<TableKind>
    ensures { result ≡ kind_named kinds.now word.now }
{
    for kind in kinds {
        if kind_word(*kind) == word {
            return Some(*kind);
        }
    }
    None
}

/// The fault of a word that is no kind.
fn strange(sort: TableSort, at: Text) -> ConfFault
    ensures { result ≡ strange sort at }
{
    match sort {
        TableSort::Rule => ConfFault::OutOfRange(at),
        TableSort::Input
        | TableSort::Intermediate
        | TableSort::Output
        | TableSort::Field
        | TableSort::Row => ConfFault::UnknownPlugin(at),
    }
}

/// The kind of a table, or why it has none.
#[tactic(auto, unfolding(config_spec::specs::Faults::kind_of))]
fn kind_of(
    alloc: Global,
    version: Version,
    sort: TableSort,
    path: &str,
    table: &Table,
) -> Result<TableKind, ConfFault>
    ensures ok { IfOk result (λ kind. kind_of version sort path.now (table_view table.now) ≡ Ok kind) }
    ensures err { IfErr result (λ fault. ¬ (IsMemory fault) → kind_of version sort path.now (table_view table.now) ≡ Err fault) }
{
    match choice_of(sort) {
        Choice::By(key) => match value_at(key, table) {
            Some(value) => match value.as_str() {
                Some(word) => match kind_named(kinds_of(version, sort), word) {
                    Some(kind) => Ok(kind),
                    None => Err(strange(sort, path_of(alloc, path, word_of(key))?)),
                },
                None => Err(ConfFault::WrongType(path_of(alloc, path, word_of(key))?)),
            },
            None => Err(ConfFault::Missing(path_of(alloc, path, word_of(key))?)),
        },
        Choice::Always(kind) => Ok(kind),
    }
}

/// The path to a table in an array.
#[tactic(auto, unfolding(config_spec::specs::Faults::below))]
fn below(alloc: Global, path: &str, key: Key, place: usize) -> Result<String, AllocError>
    ensures { IfOk result (λ made. string_bytes made ≡ below path.now key place) }
{
    let number = place.to_string(alloc)?;
    let mut made = String::from_str(alloc, path)?;
    made.push_str(word_of(key))?;
    made.push_str(".")?;
    made.push_str(number.as_str())?;
    made.push_str(".")?;
    Ok(made)
}

/// What refuses a table with a fault.
pub trait Check {
    /// The first fault of a table of a sort at a path.
    ghost fault: { Self → TableSort → List ℕ → Members → Option ConfFault };

    fn refuse(
        &self,
        alloc: Global,
        sort: TableSort,
        path: &str,
        table: &Table,
    ) -> Result<(), ConfFault>
        ensures ok { OnOk result (fault self.now sort path.now (table_view table.now) ≡ None) }
        ensures err { IfErr result (λ e. ¬ (IsMemory e) → fault self.now sort path.now (table_view table.now) ≡ Some e) };
}

/// Refuses the first of these tables that has a fault.
fn items_fit<C: Check>(
    alloc: Global,
    check: &C,
    sort: TableSort,
    path: &str,
    key: Key,
    items: &[Value],
) -> Result<(), ConfFault>
    ensures ok { OnOk result (items_fault (C.fault check.now sort) path.now key 0 (map view items.now) ≡ None) }
    ensures err { IfErr result (λ e. ¬ (IsMemory e) → items_fault (C.fault check.now sort) path.now key 0 (map view items.now) ≡ Some e) }
{
    for (place, item) in items.iter().enumerate() {
        if let Some(table) = item.as_table() {
            let path = below(alloc, path, key, place)?;
            check.refuse(alloc, sort, path.as_str(), table)?;
        }
    }
    Ok(())
}

/// Refuses the first table in the array at a key that has a fault.
#[tactic(auto, unfolding(config_spec::specs::Faults::array_fault))]
fn array_fits<C: Check>(
    alloc: Global,
    check: &C,
    sort: TableSort,
    path: &str,
    key: Key,
    table: &Table,
) -> Result<(), ConfFault>
    ensures ok { OnOk result (array_fault (C.fault check.now sort) path.now key (table_view table.now) ≡ None) }
    ensures err { IfErr result (λ e. ¬ (IsMemory e) → array_fault (C.fault check.now sort) path.now key (table_view table.now) ≡ Some e) }
{
    items_fit(alloc, check, sort, path, key, items_at(key, table))
}

/// Refuses the first table in these arrays that has a fault.
pub fn arrays_fit<C: Check>(
    alloc: Global,
    check: &C,
    path: &str,
    arrays: &[(Key, TableSort)],
    table: &Table,
) -> Result<(), ConfFault>
    ensures ok { OnOk result (arrays_fault (C.fault check.now) path.now arrays.now (table_view table.now) ≡ None) }
    ensures err { IfErr result (λ e. ¬ (IsMemory e) → arrays_fault (C.fault check.now) path.now arrays.now (table_view table.now) ≡ Some e) }
{
    for (key, sort) in arrays {
        array_fits(alloc, check, *sort, path, *key, table)?;
    }
    Ok(())
}

/// Refuses a table with a fault of its own.
#[derive(Clone, Copy)]
struct Own {
    version: Version,
}

impl Check for Own {
    ghost fault = { λ own. table_fault own.version };

    #[tactic(auto, unfolding(config_spec::specs::Faults::table_fault))]
    fn refuse(
        &self,
        alloc: Global,
        sort: TableSort,
        path: &str,
        table: &Table,
    ) -> Result<(), ConfFault> {
        let kind = kind_of(alloc, self.version, sort, path, table)?;
        own_fits(alloc, path, table, rows_of(self.version, kind))
    }
}

/// Refuses a table with a fault of its own, or with a table in it that the inner check refuses.
#[derive(Clone, Copy)]
struct Nested<C> {
    version: Version,
    inner: C,
}

impl<C: Check> Check for Nested<C> {
    ghost fault = { λ nested. nested_fault (C.fault nested.inner) nested.version };

    #[tactic(auto, unfolding(config_spec::specs::Faults::table_fault))]
    fn refuse(
        &self,
        alloc: Global,
        sort: TableSort,
        path: &str,
        table: &Table,
    ) -> Result<(), ConfFault> {
        let kind = kind_of(alloc, self.version, sort, path, table)?;
        own_fits(alloc, path, table, rows_of(self.version, kind))?;
        arrays_fit(
            alloc,
            &self.inner,
            path,
            children_of(self.version, kind),
            table,
        )
    }
}

/// Refuses a table in an array of the top table with a fault of its own or of a table in it.
#[derive(Clone, Copy)]
pub struct Whole {
    pub version: Version,
}

impl Check for Whole {
    ghost fault = { λ whole. whole_fault whole.version };

    #[tactic(auto, unfolding(config_spec::specs::Faults::whole_fault))]
    fn refuse(
        &self,
        alloc: Global,
        sort: TableSort,
        path: &str,
        table: &Table,
    ) -> Result<(), ConfFault> {
        let version = self.version;
        match version {
            Version::One => {
                let tables = Nested {
                    version,
                    inner: Own { version },
                };
                tables.refuse(alloc, sort, path, table)
            }
        }
    }
}
