// Look-ups in a table.
ghost use Rattle.std.specs.Prelude.{◌≡◌, option_map, option_copied, map};
ghost use Rattle.toml.specs.View.{view, table_view};
ghost use Rattle.config_spec.specs.Fits.{value_at, text_found, text_at};
ghost use Rattle.config_spec.specs.Faults.{items_at};

use crate::words::word_of;
use config_spec::Key;
use toml::{Table, Value};

/// The value at a key.
pub fn value_at<'a>(key: Key, table: &'a Table) -> Option<&'a Value>
    ensures { option_map (λ v. view v.now) result ≡ value_at key (table_view table.now) }
{
    table.get(word_of(key))
}

/// The text at a key.
pub fn text_found<'a>(key: Key, table: &'a Table) -> Option<&'a str>
    ensures { option_copied result ≡ text_found key (table_view table.now) }
{
    match value_at(key, table) {
        Some(value) => value.as_str(),
        None => None,
    }
}

/// The text at a key, or an empty one.
#[tactic(auto, unfolding(config_spec::specs::Fits::text_at))]
pub fn text_at<'a>(key: Key, table: &'a Table) -> &'a str
    ensures { result.now ≡ text_at key (table_view table.now) }
{
    match text_found(key, table) {
        Some(text) => text,
        None => "",
    }
}

/// The items of the array at a key.
#[tactic(auto, using(crate::proofs::TreeLemmas::items_list_view))]
pub fn items_at<'a>(key: Key, table: &'a Table) -> &'a [Value]
    ensures { map view result.now ≡ items_at key (table_view table.now) }
{
    match value_at(key, table) {
        Some(value) => match value.as_array() {
            Some(items) => items.as_slice(),
            None => &[],
        },
        None => &[],
    }
}
