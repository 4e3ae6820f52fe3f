// A filter that was prepared for the records of one definition.
ghost use Rattle.std.specs.Prelude.{◌≡◌, true, map, IfOk};
ghost use Rattle.std.specs.List.{AllByRecursion};
ghost use Rattle.wire_spec.specs.declared.field.FieldSpec.{FieldSpec};
ghost use Rattle.wire_spec.specs.Record.{IsSomeRecord};
ghost use Rattle.wire_spec.specs.Size.{are_fixed};
ghost use Rattle.wire_spec.specs.Values.{values_of};
ghost use Rattle.act_spec.specs.Filter.{keeps, keeps_by};
ghost use Rattle.filter_stage.specs.Prepared.{rule_of, HasPlaces, Suits};

use crate::plain::matches;
use crate::rule::{PreparedRule, applies};
use config_spec::FilterTable;
use std::alloc::{AllocError, Global};
use template_def::Definition;

/// A filter for the records of one definition: the rules that can match them, in order.
#[derive(Drop)]
pub struct PreparedFilter {
    rules: Vec<PreparedRule>,
    default_keep: bool,
    is_fixed: bool,
}

/// Whether rules keep a record, whose fields stand where they stand in each.
fn keeps_fixed(rules: &[PreparedRule], default_keep: bool, def: &Definition, rec: &[u8]) -> bool
    requires is_record { IsSomeRecord def.now.fields rec.now }
    requires fixed { are_fixed def.now.fields ≡ true }
    requires places { AllByRecursion (HasPlaces def.now.fields) rules.now }
    ensures { result ≡ keeps_by default_keep (map rule_of rules.now) def.now.fields (values_of def.now.fields rec.now) }
{
    for prepared in rules {
        if prepared.matches_fixed(def, rec) {
            return prepared.rule.keep;
        }
    }
    default_keep
}

/// Whether rules keep a record.
fn keeps_varying(rules: &[PreparedRule], default_keep: bool, def: &Definition, rec: &[u8]) -> bool
    requires { IsSomeRecord def.now.fields rec.now }
    ensures { result ≡ keeps_by default_keep (map rule_of rules.now) def.now.fields (values_of def.now.fields rec.now) }
{
    for prepared in rules {
        if matches(&prepared.rule, def, rec) {
            return prepared.rule.keep;
        }
    }
    default_keep
}

impl PreparedFilter {
    /// Prepares a filter's table for the records of a definition: once for each, since it goes over all rules.
    pub fn new(
        alloc: Global,
        table: &FilterTable,
        def: &Definition,
    ) -> Result<PreparedFilter, AllocError>
        ensures { IfOk result (Suits table.now def.now.fields) }
    {
        let mut rules = Vec::new(alloc);
        for rule in table.rules.as_slice() {
            if applies(rule, def.fields()) {
                rules.push(PreparedRule::new(alloc, rule, def)?)?;
            }
        }
        Ok(PreparedFilter {
            rules,
            default_keep: table.default_keep,
            is_fixed: def.is_fixed(),
        })
    }

    /// Whether the table keeps a record of the definition.
    pub fn keeps(&self, def: &Definition, rec: &[u8]) -> bool
        requires suits { (table : FilterTable) × Suits table def.now.fields self.now }
        requires is_record { IsSomeRecord def.now.fields rec.now }
        ensures { (table : FilterTable) → Suits table def.now.fields self.now → result ≡ keeps table def.now.fields (values_of def.now.fields rec.now) }
    {
        if self.is_fixed {
            keeps_fixed(&self.rules, self.default_keep, def, rec)
        } else {
            keeps_varying(&self.rules, self.default_keep, def, rec)
        }
    }
}
