// Names, paths and prefixes that stand twice.
ghost use Rattle.std.specs.Prelude.{◌≡◌, ◌++◌, ◌∷◌, Some, None, Ok, OnOk, IfOk, IfErr, map};
ghost use Rattle.toml.specs.Data.{Members};
ghost use Rattle.toml.specs.View.{view, table_view};
ghost use Rattle.config_spec.specs.First.{IsMemory};
ghost use Rattle.config_spec.specs.Repeats.{repeat_fault, plain, names_of, paths_of, prefix_in, mark_of, prefix_fault, prefixes_fault};
ghost use Rattle.startup_config.specs.Named.{inputs_named, stages_named, outputs_named, outputs_written};

use crate::made::{FromTable, tables_at};
use crate::values::prefix_at;
use col_base::{Octets, Text};
use config_spec::{
    Conf, ConfFault, InputConf, Key, Listed, Marked, OutputConf, Prefix, StageConf, Version,
};
use setting_tables::text_at;
use std::alloc::{AllocError, Global};
use std::collections::BTreeSet;
use toml::{Table, Value};

/// Refuses texts of which two have the same mark.
#[tactic(auto, unfolding(config_spec::specs::Repeats::repeat_fault))]
fn differ(alloc: Global, all: &[Marked]) -> Result<(), ConfFault>
    ensures ok { OnOk result (repeat_fault all.now ≡ None) }
    ensures err { IfErr result (λ fault. ¬ (IsMemory fault) → repeat_fault all.now ≡ Some fault) }
{
    let mut seen: BTreeSet<&[u8]> = BTreeSet::new(alloc);
    for (place, marked) in all.iter().enumerate() {
        match seen.insert(marked.mark.as_slice()) {
            Ok(added) => {
                if !added {
                    return Err(ConfFault::DuplicateName(marked.text.clone()?));
                }
            }
            Err(_) => return Err(ConfFault::NoMemory),
        }
    }
    Ok(())
}

/// A text that is its own mark.
fn plain(alloc: Global, text: &str) -> Result<Marked, AllocError>
    ensures { IfOk result (λ made. made ≡ plain text.now) }
{
    Ok(Marked {
        text: Text::from_str(alloc, text)?,
        mark: Octets::from_slice(alloc, text.as_bytes())?,
    })
}

fn put_inputs(
    alloc: Global,
    made: Vec<Marked>,
    inputs: &[InputConf],
) -> Result<Vec<Marked>, AllocError>
    ensures { IfOk result (λ longer. longer.items ≡ made.items ++ inputs_named inputs.now) }
{
    let mut longer = made;
    for input in inputs {
        longer.push(plain(alloc, input.spec.name.as_str())?)?;
    }
    Ok(longer)
}

fn put_stages(
    alloc: Global,
    made: Vec<Marked>,
    stages: &[StageConf],
) -> Result<Vec<Marked>, AllocError>
    ensures { IfOk result (λ longer. longer.items ≡ made.items ++ stages_named stages.now) }
{
    let mut longer = made;
    for stage in stages {
        longer.push(plain(alloc, stage.name.as_str())?)?;
    }
    Ok(longer)
}

fn put_outputs(
    alloc: Global,
    made: Vec<Marked>,
    outputs: &[OutputConf],
) -> Result<Vec<Marked>, AllocError>
    ensures { IfOk result (λ longer. longer.items ≡ made.items ++ outputs_named outputs.now) }
{
    let mut longer = made;
    for output in outputs {
        longer.push(plain(alloc, output.name.as_str())?)?;
    }
    Ok(longer)
}

fn put_paths(
    alloc: Global,
    made: Vec<Marked>,
    outputs: &[OutputConf],
) -> Result<Vec<Marked>, AllocError>
    ensures { IfOk result (λ longer. longer.items ≡ made.items ++ outputs_written outputs.now) }
{
    let mut longer = made;
    for output in outputs {
        longer.push(plain(alloc, output.path.as_str())?)?;
    }
    Ok(longer)
}

/// The names of the instances, in their order.
#[tactic(auto, unfolding(config_spec::specs::Repeats::names_of))]
fn names_of(alloc: Global, conf: &Conf) -> Result<Vec<Marked>, AllocError>
    ensures { IfOk result (λ made. made.items ≡ names_of conf.now) }
{
    let made = put_inputs(alloc, Vec::new(alloc), conf.inputs.as_slice())?;
    let made = put_stages(alloc, made, conf.stages.as_slice())?;
    put_outputs(alloc, made, conf.outputs.as_slice())
}

/// The paths that are written: that of the order log and those of the outputs.
#[tactic(auto, unfolding(config_spec::specs::Repeats::paths_of))]
fn paths_of(alloc: Global, conf: &Conf) -> Result<Vec<Marked>, AllocError>
    ensures { IfOk result (λ made. made.items ≡ paths_of conf.now) }
{
    let mut made = Vec::new(alloc);
    if let Some(path) = &conf.order_log {
        made.push(plain(alloc, path.as_str())?)?;
    }
    put_paths(alloc, made, conf.outputs.as_slice())
}

/// Refuses a name that stands twice.
pub fn names_differ(alloc: Global, conf: &Conf) -> Result<(), ConfFault>
    ensures ok { OnOk result (repeat_fault (names_of conf.now) ≡ None) }
    ensures err { IfErr result (λ fault. ¬ (IsMemory fault) → repeat_fault (names_of conf.now) ≡ Some fault) }
{
    let names = names_of(alloc, conf)?;
    differ(alloc, &names)
}

/// Refuses a path that is written twice.
pub fn paths_differ(alloc: Global, conf: &Conf) -> Result<(), ConfFault>
    ensures ok { OnOk result (repeat_fault (paths_of conf.now) ≡ None) }
    ensures err { IfErr result (λ fault. ¬ (IsMemory fault) → repeat_fault (paths_of conf.now) ≡ Some fault) }
{
    let paths = paths_of(alloc, conf)?;
    differ(alloc, &paths)
}

/// The mark of a prefix.
fn mark_of(alloc: Global, prefix: &Prefix) -> Result<Octets, AllocError>
    ensures { IfOk result (λ made. made ≡ mark_of prefix.now) }
{
    let mut made = Octets::new(alloc);
    made.push(prefix.bits)?;
    made.extend(prefix.octets.as_slice())?;
    Ok(made)
}

impl FromTable for Marked {
    ghost value = { λ version. prefix_in };

    #[tactic(auto, unfolding(config_spec::specs::Repeats::prefix_in))]
    fn from_table(alloc: Global, _version: Version, table: &Table) -> Result<Marked, AllocError> {
        let prefix = prefix_at(alloc, Key::From, table)?;
        Ok(Marked {
            text: Text::from_str(alloc, text_at(Key::From, table))?,
            mark: mark_of(alloc, &prefix)?,
        })
    }
}

/// Refuses an anonymiser that has a prefix twice.
#[tactic(auto, unfolding(config_spec::specs::Repeats::prefix_fault))]
fn prefixes_in_differ(alloc: Global, version: Version, table: &Table) -> Result<(), ConfFault>
    ensures ok { OnOk result (prefix_fault (table_view table.now) ≡ None) }
    ensures err { IfErr result (λ fault. ¬ (IsMemory fault) → prefix_fault (table_view table.now) ≡ Some fault) }
{
    let prefixes: Listed<Marked> = tables_at(alloc, version, Key::Row, table)?;
    differ(alloc, prefixes.as_slice())
}

/// Refuses the first of these intermediates that has a prefix twice.
pub fn prefixes_differ(alloc: Global, version: Version, items: &[Value]) -> Result<(), ConfFault>
    ensures ok { OnOk result (prefixes_fault (map view items.now) ≡ None) }
    ensures err { IfErr result (λ fault. ¬ (IsMemory fault) → prefixes_fault (map view items.now) ≡ Some fault) }
{
    for item in items {
        if let Some(table) = item.as_table() {
            prefixes_in_differ(alloc, version, table)?;
        }
    }
    Ok(())
}
