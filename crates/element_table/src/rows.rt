// Rows out of TOML.
ghost use Rattle.std.specs.Prelude.{◌≡◌, ◌≤◌, Ok, Err, IfOk, IfErr, IfSome, IsTrue, option_copied, map};
ghost use Rattle.toml.specs.View.{view, table_view};
ghost use Rattle.element_spec.specs.Faults.{IsMemory};
ghost use Rattle.element_spec.specs.Names.{is_name, is_prefix};
ghost use Rattle.element_spec.specs.Rows.{number_within, number_at, text_at, text_passed, row_of};
ghost use Rattle.element_spec.specs.Table.{row_added, value_added, values_added};

use crate::Elements;
use crate::keys::{are_known, type_named, value_at};
use crate::names::{is_name, is_prefix, printed_name};
use col_base::Text;
use element_spec::{Key, TableFault};
use std::alloc::Global;
use text_spec::Element;
use toml::{Table, Value};

const ROW_KEYS: [Key; 5] = [Key::Pen, Key::Id, Key::Prefix, Key::Name, Key::Type];

const GREATEST_PEN: u64 = 0xffff_ffff;

const GREATEST_ID: u64 = 32767;

fn number_within(most: u64, number: i64) -> Option<u64>
    ensures value { result ≡ number_within most number }
    ensures range { IfSome result (λ n. n ≤ most) }
{
    match u64::try_from(number) {
        Ok(number) => { if number <= most { Some(number) } else { None } }
        Err(_) => None,
    }
}

#[tactic(auto, unfolding(element_spec::specs::Rows::number_at))]
fn number_at(table: &Table, key: Key, most: u64) -> Option<u64>
    ensures value { result ≡ number_at most key (table_view table.now) }
    ensures range { IfSome result (λ n. n ≤ most) }
{
    match value_at(table, key) {
        Some(value) => match value.as_integer() {
            Some(number) => number_within(most, number),
            None => None,
        },
        None => None,
    }
}

#[tactic(auto, unfolding(element_spec::specs::Rows::text_at))]
fn text_at<'a>(table: &'a Table, key: Key) -> Option<&'a str>
    ensures { option_copied result ≡ text_at key (table_view table.now) }
{
    match value_at(table, key) {
        Some(value) => value.as_str(),
        None => None,
    }
}

fn prefix_at<'a>(table: &'a Table) -> Option<&'a str>
    ensures value { option_copied result ≡ text_passed is_prefix Key.Prefix (table_view table.now) }
    ensures form { IfSome result (λ text. IsTrue (is_prefix text.now)) }
{
    match text_at(table, Key::Prefix) {
        Some(text) => { if is_prefix(text) { Some(text) } else { None } }
        None => None,
    }
}

fn name_at<'a>(table: &'a Table) -> Option<&'a str>
    ensures { option_copied result ≡ text_passed is_name Key.Name (table_view table.now) }
{
    match text_at(table, Key::Name) {
        Some(text) => { if is_name(text) { Some(text) } else { None } }
        None => None,
    }
}

/// The row that a table stands for.
#[tactic(auto, unfolding(element_spec::specs::Rows::row_of))]
fn row_of(alloc: Global, place: usize, table: &Table) -> Result<Element, TableFault>
    ensures ok { IfOk result (λ made. row_of place (table_view table.now) ≡ Ok made) }
    ensures form { IfOk result (λ made. IsTrue (is_prefix made.prefix)) }
    ensures err { IfErr result (λ fault. ¬ (IsMemory fault) → row_of place (table_view table.now) ≡ Err fault) }
{
    if !are_known(&ROW_KEYS, table) {
        return Err(TableFault::BadRow(place));
    }
    let Some(pen) = number_at(table, Key::Pen, GREATEST_PEN) else {
        return Err(TableFault::BadRow(place));
    };
    let Some(id) = number_at(table, Key::Id, GREATEST_ID) else {
        return Err(TableFault::BadRow(place));
    };
    let Some(prefix) = prefix_at(table) else {
        return Err(TableFault::BadRow(place));
    };
    let Some(name) = name_at(table) else {
        return Err(TableFault::BadRow(place));
    };
    let Some(word) = text_at(table, Key::Type) else {
        return Err(TableFault::BadRow(place));
    };
    let Some(kind) = type_named(word) else {
        return Err(TableFault::BadType(place));
    };
    Ok(Element {
        pen: pen as u32,
        id: id as u16,
        kind,
        prefix: Text::from_str(alloc, prefix)?,
        name: Text::from_str(alloc, name)?,
    })
}

/// The table with this row behind its own.
pub fn row_added(
    alloc: Global,
    place: usize,
    table: Elements,
    row: Element,
) -> Result<Elements, TableFault>
    requires { IsTrue (is_prefix row.prefix) }
    ensures ok { IfOk result (λ made. row_added place table row ≡ Ok made) }
    ensures err { IfErr result (λ fault. ¬ (IsMemory fault) → row_added place table row ≡ Err fault) }
{
    if table.find(row.pen, row.id).is_some() {
        return Err(TableFault::Duplicate(row.pen, row.id));
    }
    let printed = printed_name(alloc, &row)?;
    if table.has_name(&row, printed.as_str()) {
        return Err(TableFault::DuplicateName(place));
    }
    Ok(table.with_row(row, printed)?)
}

#[tactic(auto, unfolding(element_spec::specs::Table::value_added))]
fn value_added(
    alloc: Global,
    place: usize,
    table: Elements,
    value: &Value,
) -> Result<Elements, TableFault>
    ensures ok { IfOk result (λ made. value_added place table (view value.now) ≡ Ok made) }
    ensures err { IfErr result (λ fault. ¬ (IsMemory fault) → value_added place table (view value.now) ≡ Err fault) }
{
    match value.as_table() {
        Some(members) => {
            let row = row_of(alloc, place, members)?;
            row_added(alloc, place, table, row)
        }
        None => Err(TableFault::BadRow(place)),
    }
}

/// The table with the rows of these values behind its own.
pub fn values_added(
    alloc: Global,
    known: Elements,
    values: &[Value],
) -> Result<Elements, TableFault>
    ensures ok { IfOk result (λ made. values_added 0 known (map view values.now) ≡ Ok made) }
    ensures err { IfErr result (λ fault. ¬ (IsMemory fault) → values_added 0 known (map view values.now) ≡ Err fault) }
{
    let mut table = known;
    for (place, value) in values.iter().enumerate() {
        table = value_added(alloc, place, table, value)?;
    }
    Ok(table)
}
