// What the tables of a description stand for.
ghost use Rattle.std.specs.Prelude.{◌≡◌, ◌++◌, IfOk, map, Some, None};
ghost use Rattle.toml.specs.Data.{Members};
ghost use Rattle.config_spec.specs.declared.key.Version.{Version};
ghost use Rattle.toml.specs.View.{view, table_view};
ghost use Rattle.config_spec.specs.Values.{each_table, tables_at, each_text, texts_at, pair_of, test_in, rule_of, anon_row_of, anon_table_of, filter_table_of, work_in, stage_of, transport_in, place_in, spec_of, input_of, output_in, output_of, order_log_of, conf_in};

use crate::values::{
    address_at, domains_of, flag_of, keeps, kind_at, long_of, number_of, octet_of, prefix_at,
    short_of,
};
use arrival_spec::InputSpec;
use col_base::{Lifetimes, Text, Transport};
use config_spec::{
    AnonRow, AnonTable, Conf, FilterTable, InputConf, Key, Listed, Names, OutputConf, OutputKind,
    Pair, Rule, StageConf, StageWork, TableKind, TableSort, Test, Version,
};
use setting_tables::rows::{
    ACT, CUT4, CUT6, DEFAULT_ACT, HIGH, ID, IDLE, LAST_TEMPLATE_ID, LATE, LOW, OPTIONS,
    OPTIONS_LIFETIME, PEN, RING, SLOTS, STOP_AFTER, TEMPLATE_LIFETIME, VALUE,
};
use setting_tables::{items_at, text_at, text_found};
use std::alloc::{AllocError, Global};
use toml::{Table, Value};

/// What a table stands for.
pub trait FromTable: Drop {
    /// What the table with these keys stands for, in a description of a version.
    ghost value: { Version → Members → Self };

    fn from_table(alloc: Global, version: Version, table: &Table) -> Result<Self, AllocError>
        ensures { IfOk result (λ made. made ≡ value version (table_view table.now)) };
}

fn each_table<T: FromTable>(
    alloc: Global,
    version: Version,
    items: &[Value],
) -> Result<Vec<T>, AllocError>
    ensures { IfOk result (λ made. made.items ≡ each_table (T.value version) (map view items.now)) }
{
    let mut made = Vec::new(alloc);
    for item in items {
        if let Some(table) = item.as_table() {
            made.push(T::from_table(alloc, version, table)?)?;
        }
    }
    Ok(made)
}

/// What the tables in the array at a key stand for.
#[tactic(auto, unfolding(config_spec::specs::Values::tables_at))]
pub fn tables_at<T: FromTable>(
    alloc: Global,
    version: Version,
    key: Key,
    table: &Table,
) -> Result<Listed<T>, AllocError>
    ensures { IfOk result (λ made. made ≡ tables_at (T.value version) key (table_view table.now)) }
{
    Ok(Listed::from_vec(each_table(alloc, version, items_at(key, table))?))
}

fn each_text(alloc: Global, items: &[Value]) -> Result<Vec<Text>, AllocError>
    ensures { IfOk result (λ made. made.items ≡ each_text (map view items.now)) }
{
    let mut made = Vec::new(alloc);
    for item in items {
        if let Some(text) = item.as_str() {
            made.push(Text::from_str(alloc, text)?)?;
        }
    }
    Ok(made)
}

/// The texts in the array at a key.
#[tactic(auto, unfolding(config_spec::specs::Values::texts_at))]
fn texts_at(alloc: Global, key: Key, table: &Table) -> Result<Names, AllocError>
    ensures { IfOk result (λ made. made ≡ texts_at key (table_view table.now)) }
{
    Ok(Names::from_vec(each_text(alloc, items_at(key, table))?))
}

impl FromTable for Pair {
    ghost value = { λ version. pair_of };

    #[tactic(auto, unfolding(config_spec::specs::Values::pair_of))]
    fn from_table(alloc: Global, _version: Version, table: &Table) -> Result<Pair, AllocError> {
        Ok(Pair {
            pen: long_of(&PEN, table),
            id: short_of(&ID, table),
        })
    }
}

/// The test of a rule of this kind.
fn test_in(alloc: Global, kind: TableKind, table: &Table) -> Result<Test, AllocError>
    ensures { IfOk result (λ made. made ≡ test_in kind (table_view table.now)) }
{
    match kind {
        TableKind::Equal => Ok(Test::Equal(number_of(&VALUE, table))),
        TableKind::Between => Ok(Test::Between(number_of(&LOW, table), number_of(&HIGH, table))),
        TableKind::Prefix => Ok(Test::Prefix(prefix_at(alloc, Key::Value, table)?)),
        _ => Ok(Test::Present),
    }
}

impl FromTable for Rule {
    ghost value = { rule_of };

    #[tactic(auto, unfolding(config_spec::specs::Values::rule_of))]
    fn from_table(alloc: Global, version: Version, table: &Table) -> Result<Rule, AllocError> {
        Ok(Rule {
            pen: long_of(&PEN, table),
            id: short_of(&ID, table),
            test: test_in(alloc, kind_at(version, TableSort::Rule, table), table)?,
            keep: keeps(&ACT, table),
        })
    }
}

impl FromTable for AnonRow {
    ghost value = { λ version. anon_row_of };

    #[tactic(auto, unfolding(config_spec::specs::Values::anon_row_of))]
    fn from_table(alloc: Global, _version: Version, table: &Table) -> Result<AnonRow, AllocError> {
        Ok(AnonRow {
            from: prefix_at(alloc, Key::From, table)?,
            to: address_at(alloc, Key::To, table)?,
        })
    }
}

fn anon_table(alloc: Global, version: Version, table: &Table) -> Result<AnonTable, AllocError>
    ensures { IfOk result (λ made. made ≡ anon_table_of (table_view table.now)) }
{
    Ok(AnonTable {
        fields: tables_at(alloc, version, Key::Field, table)?,
        cut4: octet_of(&CUT4, table),
        cut6: octet_of(&CUT6, table),
        rows: tables_at(alloc, version, Key::Row, table)?,
    })
}

fn filter_table(alloc: Global, version: Version, table: &Table) -> Result<FilterTable, AllocError>
    ensures { IfOk result (λ made. made ≡ filter_table_of version (table_view table.now)) }
{
    Ok(FilterTable {
        rules: tables_at(alloc, version, Key::Rule, table)?,
        default_keep: keeps(&DEFAULT_ACT, table),
    })
}

/// What an intermediate of this kind does.
fn work_in(
    alloc: Global,
    version: Version,
    kind: TableKind,
    table: &Table,
) -> Result<StageWork, AllocError>
    ensures { IfOk result (λ made. made ≡ work_in version kind (table_view table.now)) }
{
    match kind {
        TableKind::Anonymise => Ok(StageWork::Anonymise(anon_table(alloc, version, table)?)),
        _ => Ok(StageWork::Filter(filter_table(alloc, version, table)?)),
    }
}

impl FromTable for StageConf {
    ghost value = { stage_of };

    #[tactic(auto, unfolding(config_spec::specs::Values::stage_of))]
    fn from_table(alloc: Global, version: Version, table: &Table) -> Result<StageConf, AllocError> {
        Ok(StageConf {
            name: Text::from_str(alloc, text_at(Key::Name, table))?,
            work: work_in(
                alloc,
                version,
                kind_at(version, TableSort::Intermediate, table),
                table,
            )?,
        })
    }
}

fn transport_in(kind: TableKind) -> Transport
    ensures { result ≡ transport_in kind }
{
    match kind {
        TableKind::Tcp => Transport::Tcp,
        TableKind::Udp => Transport::Udp,
        _ => Transport::File,
    }
}

fn place_in<'a>(kind: TableKind, table: &'a Table) -> &'a str
    ensures { result.now ≡ place_in kind (table_view table.now) }
{
    match kind {
        TableKind::Tcp | TableKind::Udp => text_at(Key::Listen, table),
        _ => text_at(Key::Path, table),
    }
}

/// Where an input's events come from.
#[tactic(auto, unfolding(config_spec::specs::Values::spec_of))]
fn spec_of(alloc: Global, version: Version, table: &Table) -> Result<InputSpec, AllocError>
    ensures { IfOk result (λ made. made ≡ spec_of version (table_view table.now)) }
{
    let kind = kind_at(version, TableSort::Input, table);
    Ok(InputSpec {
        name: Text::from_str(alloc, text_at(Key::Name, table))?,
        transport: transport_in(kind),
        place: Text::from_str(alloc, place_in(kind, table))?,
    })
}

impl FromTable for InputConf {
    ghost value = { input_of };

    #[tactic(auto, unfolding(config_spec::specs::Values::input_of))]
    fn from_table(alloc: Global, version: Version, table: &Table) -> Result<InputConf, AllocError> {
        Ok(InputConf {
            spec: spec_of(alloc, version, table)?,
            stop_after: number_of(&STOP_AFTER, table),
            life: Lifetimes {
                template: long_of(&TEMPLATE_LIFETIME, table),
                options: long_of(&OPTIONS_LIFETIME, table),
                late: long_of(&LATE, table),
            },
            idle: long_of(&IDLE, table),
        })
    }
}

/// What an output of this kind writes.
fn output_in(kind: TableKind, table: &Table) -> OutputKind
    ensures { result ≡ output_in kind (table_view table.now) }
{
    match kind {
        TableKind::Json => OutputKind::Json {
            options: flag_of(&OPTIONS, table),
        },
        TableKind::Ipfix => OutputKind::Ipfix {
            last_id: short_of(&LAST_TEMPLATE_ID, table),
        },
        _ => OutputKind::View,
    }
}

impl FromTable for OutputConf {
    ghost value = { output_of };

    #[tactic(auto, unfolding(config_spec::specs::Values::output_of))]
    fn from_table(
        alloc: Global,
        version: Version,
        table: &Table,
    ) -> Result<OutputConf, AllocError> {
        Ok(OutputConf {
            name: Text::from_str(alloc, text_at(Key::Name, table))?,
            path: Text::from_str(alloc, text_at(Key::Path, table))?,
            kind: output_in(kind_at(version, TableSort::Output, table), table),
            domains: domains_of(alloc, table)?,
        })
    }
}

fn order_log(alloc: Global, table: &Table) -> Result<Option<Text>, AllocError>
    ensures { IfOk result (λ made. made ≡ order_log_of (table_view table.now)) }
{
    match text_found(Key::OrderLog, table) {
        Some(path) => Ok(Some(Text::from_str(alloc, path)?)),
        None => Ok(None),
    }
}

/// The description of a top table of a version.
#[tactic(auto, unfolding(config_spec::specs::Values::conf_in))]
pub fn conf_in(alloc: Global, version: Version, table: &Table) -> Result<Conf, AllocError>
    ensures { IfOk result (λ made. made ≡ conf_in version (table_view table.now)) }
{
    Ok(Conf {
        ring: short_of(&RING, table),
        slots: long_of(&SLOTS, table),
        order_log: order_log(alloc, table)?,
        elements: texts_at(alloc, Key::Elements, table)?,
        inputs: tables_at(alloc, version, Key::Input, table)?,
        stages: tables_at(alloc, version, Key::Intermediate, table)?,
        outputs: tables_at(alloc, version, Key::Output, table)?,
    })
}
