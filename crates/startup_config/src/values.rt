// What the keys of a table stand for.
ghost use Rattle.std.specs.Prelude.{◌≡◌, ◌≤◌, ◌<◌, ◌^◌, Some, None, IfOk, option_map};
ghost use Rattle.toml.specs.View.{table_view};
ghost use Rattle.config_spec.specs.Domains.{domains};
ghost use Rattle.config_spec.specs.Values.{default_of, integer_at, number_within, most_of, number_of, flag_default, flag_of, keeps, prefix_at, address_at, ranges_in, domain_set, domains_of, kind_at};

use col_base::Octets;
use config_spec::{
    Choice, DomainSet, Key, KeyRow, Need, Prefix, Ranges, Shape, TableKind, TableSort, Version,
};
use setting_tables::{choice_of, kind_named, kinds_of, least_at, text_at, text_found, value_at};
use setting_texts::{address, domains, prefix};
use std::alloc::{AllocError, Global};
use toml::Table;

fn number_within(low: u64, high: u64, default: u64, found: Option<i64>) -> u64
    ensures { result ≡ number_within low high default found }
{
    match found {
        Some(number) => match u64::try_from(number) {
            Ok(number) if low <= number && number <= high => number,
            _ => default,
        },
        None => default,
    }
}

fn default_of(need: Need) -> u64
    ensures { result ≡ default_of need }
{
    match need {
        Need::Number(default) => default,
        Need::Required | Need::Optional | Need::Flag(_) => 0,
    }
}

fn integer_at(key: Key, table: &Table) -> Option<i64>
    ensures { result ≡ integer_at key (table_view table.now) }
{
    match value_at(key, table) {
        Some(value) => value.as_integer(),
        None => None,
    }
}

/// The number at a row's key, or what stands for it.
#[tactic(auto, unfolding(config_spec::specs::Values::number_of))]
pub fn number_of(row: &KeyRow, table: &Table) -> u64
    ensures value { result ≡ number_of row.now (table_view table.now) }
    ensures range { result ≤ most_of row.now }
{
    let default = default_of(row.need);
    let found = integer_at(row.key, table);
    match row.shape {
        Shape::Number(low, high) => number_within(low, high, default, found),
        Shape::From(key, high) => number_within(least_at(key, table), high, default, found),
        Shape::Chosen
        | Shape::Name
        | Shape::Place
        | Shape::Places(_)
        | Shape::Tables(_, _)
        | Shape::Act
        | Shape::Flag
        | Shape::Prefix
        | Shape::Like(_)
        | Shape::Domains
        | Shape::DomainsWithout(_) => default,
    }
}

/// The same in 8 bits.
pub fn octet_of(row: &KeyRow, table: &Table) -> u8
    requires { most_of row.now < 2 ^ 8 }
    ensures { result ≡ number_of row.now (table_view table.now) }
{
    number_of(row, table) as u8
}

/// The same in 16 bits.
pub fn short_of(row: &KeyRow, table: &Table) -> u16
    requires { most_of row.now < 2 ^ 16 }
    ensures { result ≡ number_of row.now (table_view table.now) }
{
    number_of(row, table) as u16
}

/// The same in 32 bits.
pub fn long_of(row: &KeyRow, table: &Table) -> u32
    requires { most_of row.now < 2 ^ 32 }
    ensures { result ≡ number_of row.now (table_view table.now) }
{
    number_of(row, table) as u32
}

fn flag_default(need: Need) -> bool
    ensures { result ≡ flag_default need }
{
    match need {
        Need::Flag(default) => default,
        Need::Required | Need::Optional | Need::Number(_) => false,
    }
}

/// True or false at a row's key, or what stands for it.
#[tactic(auto, unfolding(config_spec::specs::Values::flag_of))]
pub fn flag_of(row: &KeyRow, table: &Table) -> bool
    ensures { result ≡ flag_of row.now (table_view table.now) }
{
    match value_at(row.key, table) {
        Some(value) => match value.as_bool() {
            Some(flag) => flag,
            None => flag_default(row.need),
        },
        None => flag_default(row.need),
    }
}

/// Whether a row's key says `keep`, or what stands for it.
#[tactic(auto, unfolding(config_spec::specs::Values::keeps))]
pub fn keeps(row: &KeyRow, table: &Table) -> bool
    ensures { result ≡ keeps row.now (table_view table.now) }
{
    match text_found(row.key, table) {
        Some(text) => text == "keep",
        None => flag_default(row.need),
    }
}

/// The prefix at a key.
#[tactic(auto, unfolding(config_spec::specs::Values::prefix_at))]
pub fn prefix_at(alloc: Global, key: Key, table: &Table) -> Result<Prefix, AllocError>
    ensures { IfOk result (λ made. made ≡ prefix_at key (table_view table.now)) }
{
    match prefix(alloc, text_at(key, table))? {
        Some(prefix) => Ok(prefix),
        None => Ok(Prefix {
            octets: Octets::new(alloc),
            bits: 0,
        }),
    }
}

/// The octets of the address at a key.
#[tactic(auto, unfolding(config_spec::specs::Values::address_at))]
pub fn address_at(alloc: Global, key: Key, table: &Table) -> Result<Octets, AllocError>
    ensures { IfOk result (λ made. made ≡ address_at key (table_view table.now)) }
{
    match address(text_at(key, table)) {
        Some(address) => Octets::from_slice(alloc, address.octets()),
        None => Ok(Octets::new(alloc)),
    }
}

fn ranges_in(alloc: Global, text: &str) -> Result<Ranges, AllocError>
    ensures { IfOk result (λ made. made ≡ ranges_in text.now) }
{
    match domains(alloc, text)? {
        Some(ranges) => Ok(ranges),
        None => Ok(Ranges::from_vec(Vec::new(alloc))),
    }
}

/// The domains of an output.
#[tactic(auto, unfolding(config_spec::specs::Values::domains_of))]
pub fn domains_of(alloc: Global, table: &Table) -> Result<DomainSet, AllocError>
    ensures { IfOk result (λ made. made ≡ domains_of (table_view table.now)) }
{
    match text_found(Key::OdidOnly, table) {
        Some(only) => Ok(DomainSet::Only(ranges_in(alloc, only)?)),
        None => match text_found(Key::OdidExcept, table) {
            Some(except) => Ok(DomainSet::Except(ranges_in(alloc, except)?)),
            None => Ok(DomainSet::All),
        },
    }
}

/// The kind of a table that has one.
#[tactic(auto, unfolding(config_spec::specs::Values::kind_at))]
pub fn kind_at(version: Version, sort: TableSort, table: &Table) -> TableKind
    ensures { result ≡ kind_at version sort (table_view table.now) }
{
    match choice_of(sort) {
        Choice::By(key) => match kind_named(kinds_of(version, sort), text_at(key, table)) {
            Some(kind) => kind,
            None => TableKind::Top,
        },
        Choice::Always(kind) => kind,
    }
}
