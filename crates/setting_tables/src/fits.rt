// Whether a value is what its key's value has to be.
ghost use Rattle.std.specs.Prelude.{◌≡◌, pos, map, IfOk};
ghost use Rattle.std.specs.List.{list_all};
ghost use Rattle.toml.specs.View.{view, table_view};
ghost use Rattle.config_spec.specs.Texts.{address, prefix};
ghost use Rattle.config_spec.specs.Fits.{number_or_zero, least_at, fits, default_fits, is_name, is_name_octet, is_place, is_act, is_prefix, is_like, are_domains, is_there, is_between, within, is_table, is_text, is_place_item, tables_fit, places_fit, number_fits, text_test};

use crate::tree::{text_at, value_at};
use crate::words::word_of;
use config_spec::{Key, Shape, Verdict};
use setting_texts::{address, domains, prefix_parts};
use std::alloc::{AllocError, Global};
use toml::{Table, Value};

fn within(holds: bool) -> Verdict
    ensures { result ≡ within holds }
{
    if holds {
        Verdict::Right
    } else {
        Verdict::OutOfRange
    }
}

fn is_between(low: u64, high: u64, number: i64) -> bool
    ensures { result ≡ is_between low high number }
{
    match u64::try_from(number) {
        Ok(number) => low <= number && number <= high,
        Err(_) => false,
    }
}

fn number_fits(low: u64, high: u64, found: Option<i64>) -> Verdict
    ensures { result ≡ number_fits low high found }
{
    match found {
        Some(number) => within(is_between(low, high, number)),
        None => Verdict::WrongType,
    }
}

fn is_name_octet(octet: u8) -> bool
    ensures { result ≡ is_name_octet octet }
{
    octet.is_ascii_alphanumeric() || octet == b'_' || octet == b'-'
}

fn are_name_octets(octets: &[u8]) -> bool
    ensures { result ≡ list_all is_name_octet octets.now }
{
    octets.iter().all(|octet| is_name_octet(*octet))
}

#[tactic(auto, unfolding(config_spec::specs::Fits::is_name))]
fn is_name(text: &str) -> bool
    ensures { result ≡ is_name text.now }
{
    1 <= text.len()
        && text.len() <= 64
        && are_name_octets(text.as_bytes())
        && !(text == word_of(Key::OrderLog))
}

#[tactic(auto, unfolding(config_spec::specs::Fits::is_place))]
fn is_place(text: &str) -> bool
    ensures { result ≡ is_place text.now }
{
    1 <= text.len() && text.len() <= 4096
}

#[tactic(auto, unfolding(config_spec::specs::Fits::is_act))]
fn is_act(text: &str) -> bool
    ensures { result ≡ is_act text.now }
{
    text == "keep" || text == "drop"
}

fn is_prefix(text: &str) -> bool
    ensures { result ≡ is_prefix text.now }
{
    prefix_parts(text).is_some()
}

/// Whether it is an address of the same kind as the prefix.
#[tactic(auto, using(config_spec::proofs::PrefixLemmas::masked_length))]
fn is_like(from: &str, to: &str) -> bool
    ensures { result ≡ is_like from.now to.now }
{
    match prefix_parts(from) {
        Some((front, _)) => match address(to) {
            Some(to) => front.octets().len() == to.octets().len(),
            None => false,
        },
        None => false,
    }
}

fn are_domains(alloc: Global, text: &str) -> Result<bool, AllocError>
    ensures { IfOk result (λ are. are ≡ are_domains text.now) }
{
    let found = domains(alloc, text)?;
    Ok(found.is_some())
}

fn are_tables(items: &[Value]) -> bool
    ensures { result ≡ list_all is_table (map view items.now) }
{
    for item in items {
        if !item.is_table() {
            return false;
        }
    }
    true
}

fn are_texts(items: &[Value]) -> bool
    ensures { result ≡ list_all is_text (map view items.now) }
{
    for item in items {
        if !item.is_str() {
            return false;
        }
    }
    true
}

fn is_place_item(item: &Value) -> bool
    ensures { result ≡ is_place_item (view item.now) }
{
    match item.as_str() {
        Some(text) => is_place(text),
        None => false,
    }
}

fn are_places(items: &[Value]) -> bool
    ensures { result ≡ list_all is_place_item (map view items.now) }
{
    for item in items {
        if !is_place_item(item) {
            return false;
        }
    }
    true
}

fn tables_fit(least: usize, most: usize, items: &[Value]) -> Verdict
    ensures { result ≡ tables_fit least most (map view items.now) }
{
    if are_tables(items) {
        within(least <= items.len() && items.len() <= most)
    } else {
        Verdict::WrongType
    }
}

fn places_fit(most: usize, items: &[Value]) -> Verdict
    ensures { result ≡ places_fit most (map view items.now) }
{
    if are_texts(items) {
        within(items.len() <= most && are_places(items))
    } else {
        Verdict::WrongType
    }
}

fn number_or_zero(found: Option<i64>) -> u64
    ensures { result ≡ number_or_zero found }
{
    match found {
        Some(number) => u64::try_from(number).unwrap_or(0),
        None => 0,
    }
}

/// The least number that a key may have beside this one.
#[tactic(auto, unfolding(config_spec::specs::Fits::least_at))]
pub fn least_at(key: Key, table: &Table) -> u64
    ensures { result ≡ least_at key (table_view table.now) }
{
    match value_at(key, table) {
        Some(value) => number_or_zero(value.as_integer()),
        None => 0,
    }
}

fn is_there(key: Key, table: &Table) -> bool
    ensures { result ≡ is_there key (table_view table.now) }
{
    value_at(key, table).is_some()
}

/// What the value is for this shape, in the table that it stands in.
#[tactic(auto, unfolding(config_spec::specs::Fits::fits), using(crate::proofs::TreeLemmas::items_list_view))]
pub fn fits(
    alloc: Global,
    shape: Shape,
    table: &Table,
    value: &Value,
) -> Result<Verdict, AllocError>
    ensures { IfOk result (λ verdict. verdict ≡ fits shape (table_view table.now) (view value.now)) }
{
    match shape {
        Shape::Chosen => Ok(Verdict::Right),
        Shape::Number(low, high) => Ok(number_fits(low, high, value.as_integer())),
        Shape::From(key, high) => Ok(number_fits(least_at(key, table), high, value.as_integer())),
        Shape::Places(most) => match value.as_array() {
            Some(items) => Ok(places_fit(most, items)),
            None => Ok(Verdict::WrongType),
        },
        Shape::Tables(least, most) => match value.as_array() {
            Some(items) => Ok(tables_fit(least, most, items)),
            None => Ok(Verdict::WrongType),
        },
        Shape::Flag => match value.as_bool() {
            Some(_) => Ok(Verdict::Right),
            None => Ok(Verdict::WrongType),
        },
        Shape::Name
        | Shape::Place
        | Shape::Act
        | Shape::Prefix
        | Shape::Like(_)
        | Shape::Domains
        | Shape::DomainsWithout(_) => match value.as_str() {
            Some(text) => Ok(within(text_fits(alloc, shape, table, text)?)),
            None => Ok(Verdict::WrongType),
        },
    }
}

/// What a default is for this shape, in the table where it is left out.
pub fn default_fits(shape: Shape, table: &Table, default: u64) -> Verdict
    ensures { result ≡ default_fits shape (table_view table.now) default }
{
    match shape {
        Shape::Number(low, high) => within(low <= default && default <= high),
        Shape::From(key, high) => within(least_at(key, table) <= default && default <= high),
        Shape::Chosen
        | Shape::Name
        | Shape::Place
        | Shape::Places(_)
        | Shape::Tables(_, _)
        | Shape::Act
        | Shape::Flag
        | Shape::Prefix
        | Shape::Like(_)
        | Shape::Domains
        | Shape::DomainsWithout(_) => Verdict::Right,
    }
}

/// Whether the text is right where a text is asked.
#[tactic(auto, unfolding(config_spec::specs::Fits::text_test))]
fn text_fits(alloc: Global, shape: Shape, table: &Table, text: &str) -> Result<bool, AllocError>
    ensures { IfOk result (λ right. right ≡ text_test shape (table_view table.now) text.now) }
{
    match shape {
        Shape::Name => Ok(is_name(text)),
        Shape::Place => Ok(is_place(text)),
        Shape::Act => Ok(is_act(text)),
        Shape::Prefix => Ok(is_prefix(text)),
        Shape::Like(key) => Ok(is_like(text_at(key, table), text)),
        Shape::Domains => are_domains(alloc, text),
        Shape::DomainsWithout(key) => {
            let right = are_domains(alloc, text)?;
            Ok(!is_there(key, table) && right)
        }
        Shape::Chosen
        | Shape::Number(_, _)
        | Shape::From(_, _)
        | Shape::Places(_)
        | Shape::Tables(_, _)
        | Shape::Flag => Ok(false),
    }
}
