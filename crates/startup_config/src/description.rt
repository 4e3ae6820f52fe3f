// Reading a description.
ghost use Rattle.std.specs.Prelude.{◌≡◌, Some, None, Ok, Err, OnOk, IfOk, IfErr};
ghost use Rattle.toml.specs.View.{table_view};
ghost use Rattle.config_spec.specs.First.{IsMemory, first_fault};
ghost use Rattle.config_spec.specs.Form.{IsConf, HasParts};
ghost use Rattle.config_spec.specs.Description.{no_input, no_output, no_order_log, whole_faults, tree_of, tree_conf, description};

use crate::made::conf_in;
use crate::repeats::{names_differ, paths_differ, prefixes_differ};
use config_spec::{Conf, ConfFault, Key, Version};
use setting_tables::{items_at, tables_fit, version_of};
use std::alloc::Global;
use toml::Table;

/// Refuses a description without inputs.
fn has_input(conf: &Conf) -> Result<(), ConfFault>
    ensures ok { OnOk result (no_input conf.now ≡ None) }
    ensures err { IfErr result (λ fault. no_input conf.now ≡ Some fault) }
{
    if conf.inputs.len() == 0 {
        Err(ConfFault::NoInput)
    } else {
        Ok(())
    }
}

/// Refuses a description without outputs.
fn has_output(conf: &Conf) -> Result<(), ConfFault>
    ensures ok { OnOk result (no_output conf.now ≡ None) }
    ensures err { IfErr result (λ fault. no_output conf.now ≡ Some fault) }
{
    if conf.outputs.len() == 0 {
        Err(ConfFault::NoOutput)
    } else {
        Ok(())
    }
}

/// Refuses two or more inputs without an order log.
fn has_log(conf: &Conf) -> Result<(), ConfFault>
    ensures ok { OnOk result (no_order_log conf.now ≡ None) }
    ensures err { IfErr result (λ fault. no_order_log conf.now ≡ Some fault) }
{
    if conf.inputs.len() >= 2 && !conf.order_log.is_some() {
        Err(ConfFault::NoOrderLog)
    } else {
        Ok(())
    }
}

/// Refuses what is wrong with a description whose tables have no fault.
fn whole_fits(alloc: Global, version: Version, table: &Table, conf: &Conf) -> Result<(), ConfFault>
    ensures ok { OnOk result (first_fault (whole_faults (table_view table.now) conf.now) ≡ None) }
    ensures err { IfErr result (λ fault. ¬ (IsMemory fault) → first_fault (whole_faults (table_view table.now) conf.now) ≡ Some fault) }
{
    has_input(conf)?;
    has_output(conf)?;
    names_differ(alloc, conf)?;
    paths_differ(alloc, conf)?;
    prefixes_differ(alloc, version, items_at(Key::Intermediate, table))?;
    has_log(conf)
}

/// The finished tree of octets.
fn tree_of(alloc: Global, octets: &[u8]) -> Result<Table, ConfFault>
    ensures ok { IfOk result (λ tree. tree_of octets.now ≡ Some (table_view tree)) }
    ensures err { IfErr result (λ fault. ¬ (IsMemory fault) → (tree_of octets.now ≡ None) × (fault ≡ ConfFault.NotToml)) }
{
    match std::str::from_utf8(octets) {
        Ok(text) => match toml::table_from_str(alloc, text) {
            Ok(tree) => Ok(tree),
            Err(fault) => {
                if fault.is_memory() {
                    Err(ConfFault::NoMemory)
                } else {
                    Err(ConfFault::NotToml)
                }
            }
        },
        Err(_) => Err(ConfFault::NotToml),
    }
}

/// The description of a tree, or its first fault.
#[tactic(auto, unfolding(config_spec::specs::Description::tree_fault))]
fn tree_conf(alloc: Global, table: &Table) -> Result<Conf, ConfFault>
    ensures ok { IfOk result (λ conf. tree_conf (Some (table_view table.now)) ≡ Ok conf) }
    ensures err { IfErr result (λ fault. ¬ (IsMemory fault) → tree_conf (Some (table_view table.now)) ≡ Err fault) }
{
    tables_fit(alloc, table)?;
    let version = version_of(table);
    let conf = conf_in(alloc, version, table)?;
    whole_fits(alloc, version, table, &conf)?;
    Ok(conf)
}

#[tactic(auto, unfolding(config_spec::specs::Description::description))]
fn described(alloc: Global, octets: &[u8]) -> Result<Conf, ConfFault>
    ensures ok { IfOk result (λ conf. description octets.now ≡ Ok conf) }
    ensures err { IfErr result (λ fault. ¬ (IsMemory fault) → description octets.now ≡ Err fault) }
{
    let tree = tree_of(alloc, octets)?;
    tree_conf(alloc, &tree)
}

/// The description that the octets stand for, or its first fault. Memory may be wanted at any place.
pub fn read(alloc: Global, octets: &[u8]) -> Result<Conf, ConfFault>
    ensures ok { IfOk result (λ conf. description octets.now ≡ Ok conf) }
    ensures form { IfOk result (λ conf. IsConf conf) }
    ensures parts { IfOk result (λ conf. HasParts conf) }
    ensures err { IfErr result (λ fault. ¬ (IsMemory fault) → description octets.now ≡ Err fault) }
{
    described(alloc, octets)
}
