// Adding a text's rows.
ghost use Rattle.std.specs.Prelude.{◌≡◌, Some, None, Ok, Err, IfOk, IfErr, OnOk, OnErr, map, is_some};
ghost use Rattle.std.specs.List.{list_all};
ghost use Rattle.toml.specs.Data.{as_table};
ghost use Rattle.toml.specs.View.{view, table_view, array_view};
ghost use Rattle.element_spec.specs.Faults.{IsMemory};
ghost use Rattle.element_spec.specs.Table.{are_tables, items_list, document_tables, tables_added, tree_of, text_added};

use crate::Elements;
use crate::keys::{are_known, value_at};
use crate::rows::values_added;
use element_spec::{Key, TableFault};
use std::alloc::Global;
use toml::{Table, Value};

const DOCUMENT_KEYS: [Key; 1] = [Key::Element];

/// As many rows as a text may have.
const MOST_ROWS: usize = 65536;

fn all_tables(values: &[Value]) -> bool
    ensures { result ≡ list_all (λ value. is_some (as_table (view value))) values.now }
{
    for value in values {
        if !value.is_table() {
            return false;
        }
    }
    true
}

#[tactic(auto, using(crate::proofs::TreeLemmas::tables_view))]
fn are_tables(values: &Vec<Value>) -> bool
    ensures { result ≡ are_tables (items_list (array_view values.now)) }
{
    all_tables(values) && values.len() <= MOST_ROWS
}

/// The table with the rows of a document behind its own.
#[tactic(auto, unfolding(element_spec::specs::Table::document_tables), using(crate::proofs::TreeLemmas::items_list_view))]
fn document_added(alloc: Global, known: Elements, document: &Table) -> Result<Elements, TableFault>
    ensures ok { IfOk result (λ made. tables_added known (document_tables (table_view document.now)) ≡ Ok made) }
    ensures err { IfErr result (λ fault. ¬ (IsMemory fault) → tables_added known (document_tables (table_view document.now)) ≡ Err fault) }
{
    if !are_known(&DOCUMENT_KEYS, document) {
        return Err(TableFault::BadRow(0));
    }
    let Some(value) = value_at(document, Key::Element) else {
        return Ok(known);
    };
    match value.as_array() {
        Some(values) => {
            if are_tables(values) {
                values_added(alloc, known, values)
            } else {
                Err(TableFault::BadRow(0))
            }
        }
        None => Err(TableFault::BadRow(0)),
    }
}

/// The finished tree of octets.
fn tree_of(alloc: Global, octets: &[u8]) -> Result<Table, TableFault>
    ensures ok { IfOk result (λ tree. tree_of octets.now ≡ Some (table_view tree)) }
    ensures err { IfErr result (λ fault. ¬ (IsMemory fault) → (tree_of octets.now ≡ None) × (fault ≡ TableFault.NotToml)) }
{
    match std::str::from_utf8(octets) {
        Ok(text) => match toml::table_from_str(alloc, text) {
            Ok(tree) => Ok(tree),
            Err(fault) => {
                if fault.is_memory() {
                    Err(TableFault::NoMemory)
                } else {
                    Err(TableFault::NotToml)
                }
            }
        },
        Err(_) => Err(TableFault::NotToml),
    }
}

impl Elements {
    /// Adds the rows of an element table in TOML, all of them or none. It answers the first fault.
    #[tactic(auto, unfolding(element_spec::specs::Table::text_added))]
    pub fn add_table(&mut self, alloc: Global, octets: &[u8]) -> Result<(), TableFault>
        ensures ok { OnOk result (text_added self.old octets.now ≡ Ok self.new) }
        ensures err { IfErr result (λ fault. ¬ (IsMemory fault) → text_added self.old octets.now ≡ Err fault) }
        ensures unchanged { OnErr result (self.new ≡ self.old) }
    {
        let document = tree_of(alloc, octets)?;
        let known = self.clone()?;
        let more = document_added(alloc, known, &document)?;
        *self = more;
        Ok(())
    }
}
