// The first fault of a table, key by key.
ghost use Rattle.std.specs.Prelude.{◌≡◌, ◌++◌, Some, None, OnOk, IfOk, IfErr};
ghost use Rattle.toml.specs.View.{table_view};
ghost use Rattle.config_spec.specs.First.{IsMemory};
ghost use Rattle.config_spec.specs.Faults.{key_fault, keys_fault, is_known, unknown_fault, own_fault};

use crate::fits::{default_fits, fits};
use crate::tree::value_at;
use crate::words::word_of;
use col_base::Text;
use config_spec::{ConfFault, Key, KeyRow, Need, Verdict};
use std::alloc::{AllocError, Global};
use toml::Table;

/// The path of a word in the table at a path.
pub fn path_of(alloc: Global, path: &str, word: &str) -> Result<Text, AllocError>
    ensures { IfOk result (λ made. made ≡ path.now ++ word.now) }
{
    let mut made = String::from_str(alloc, path)?;
    made.push_str(word)?;
    Ok(Text::from_string(made))
}

/// Refuses a table where this key has a fault.
#[tactic(auto, unfolding(config_spec::specs::Faults::key_fault))]
fn key_fits(alloc: Global, path: &str, table: &Table, row: &KeyRow) -> Result<(), ConfFault>
    ensures ok { OnOk result (key_fault path.now (table_view table.now) row.now ≡ None) }
    ensures err { IfErr result (λ fault. ¬ (IsMemory fault) → key_fault path.now (table_view table.now) row.now ≡ Some fault) }
{
    let verdict = match value_at(row.key, table) {
        Some(value) => fits(alloc, row.shape, table, value)?,
        None => match row.need {
            Need::Required => {
                return Err(ConfFault::Missing(path_of(alloc, path, word_of(row.key))?));
            }
            Need::Optional | Need::Flag(_) => Verdict::Right,
            Need::Number(default) => default_fits(row.shape, table, default),
        },
    };
    match verdict {
        Verdict::Right => Ok(()),
        Verdict::WrongType => Err(ConfFault::WrongType(path_of(alloc, path, word_of(row.key))?)),
        Verdict::OutOfRange => Err(ConfFault::OutOfRange(path_of(alloc, path, word_of(row.key))?)),
    }
}

/// Refuses a table at its first key that has a fault.
fn keys_fit(alloc: Global, path: &str, table: &Table, rows: &[KeyRow]) -> Result<(), ConfFault>
    ensures ok { OnOk result (keys_fault path.now rows.now (table_view table.now) ≡ None) }
    ensures err { IfErr result (λ fault. ¬ (IsMemory fault) → keys_fault path.now rows.now (table_view table.now) ≡ Some fault) }
{
    for row in rows {
        key_fits(alloc, path, table, row)?;
    }
    Ok(())
}

fn is_known(rows: &[KeyRow], word: &str) -> bool
    ensures { result ≡ is_known rows.now word.now }
{
    rows.iter().any(|row| word_of(row.key) == word)
}

/// Refuses a table at its least key that isn't among the rows.
fn keys_are_known(
    alloc: Global,
    path: &str,
    table: &Table,
    rows: &[KeyRow],
) -> Result<(), ConfFault>
    ensures ok { OnOk result (unknown_fault path.now rows.now (table_view table.now) ≡ None) }
    ensures err { IfErr result (λ fault. ¬ (IsMemory fault) → unknown_fault path.now rows.now (table_view table.now) ≡ Some fault) }
{
    for (word, _) in table.iter() {
        if !is_known(rows, word.as_str()) {
            return match path_of(alloc, path, word.as_str()) {
                Ok(at) => Err(ConfFault::UnknownKey(at)),
                Err(_) => Err(ConfFault::NoMemory),
            };
        }
    }
    Ok(())
}

/// Refuses a table that has an unknown key, or a key with a fault.
pub fn own_fits(alloc: Global, path: &str, table: &Table, rows: &[KeyRow]) -> Result<(), ConfFault>
    ensures ok { OnOk result (own_fault path.now rows.now (table_view table.now) ≡ None) }
    ensures err { IfErr result (λ fault. ¬ (IsMemory fault) → own_fault path.now rows.now (table_view table.now) ≡ Some fault) }
{
    keys_are_known(alloc, path, table, rows)?;
    keys_fit(alloc, path, table, rows)
}
