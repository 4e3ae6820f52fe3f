// A rule that applies to the records of one definition.
ghost use Rattle.std.specs.Prelude.{◌≡◌, ◌≤◌, ◌<◌, ◌+◌, ◌^◌, true, length, IfOk};
ghost use Rattle.std.specs.List.{AllByRecursion};
ghost use Rattle.wire_spec.specs.Record.{IsSomeRecord, shortest};
ghost use Rattle.wire_spec.specs.Size.{are_fixed};
ghost use Rattle.wire_spec.specs.Values.{values_of};
ghost use Rattle.act_spec.specs.Filter.{matches};
ghost use Rattle.filter_stage.specs.Prepared.{applies, has_element, passes_at, places_of, HasPlaces};

use crate::check::passes;
use config_spec::{Rule, Test};
use record_iter::ValuePlace;
use std::alloc::{AllocError, Global};
use template_def::Definition;
use wire_spec::FieldSpec;

/// A rule with the places of the values that it looks at, where they are the same in each record.
#[derive(Drop)]
pub struct PreparedRule {
    pub rule: Rule,
    /// Empty where a field of the definition varies in length.
    pub places: Vec<ValuePlace>,
}

/// Whether a field has the rule's element.
fn has_element(rule: &Rule, field: FieldSpec) -> bool
    ensures { result ≡ has_element rule.now field }
{
    field.pen == rule.pen && field.id == rule.id
}

/// Whether some field has the rule's element. The rule matches no record otherwise.
pub fn applies(rule: &Rule, fields: &[FieldSpec]) -> bool
    ensures { result ≡ applies fields.now rule.now }
{
    fields.iter().any(|field| has_element(rule, *field))
}

/// Where the values of the fields with the rule's element stand in each record.
fn places_of(
    alloc: Global,
    rule: &Rule,
    fields: &[FieldSpec],
) -> Result<Vec<ValuePlace>, AllocError>
    requires fixed { are_fixed fields.now ≡ true }
    requires short { shortest fields.now < 2 ^ 32 }
    ensures { IfOk result (λ places. places.items ≡ places_of rule.now 0 fields.now) }
{
    let mut places = Vec::new(alloc);
    let mut at = 0;
    for field in fields {
        let len = field.len as usize;
        if has_element(rule, *field) {
            places.push(ValuePlace { at, len })?;
        }
        at += len;
    }
    Ok(places)
}

/// Whether a value at one of the places passes.
fn passes_at(test: &Test, places: &[ValuePlace], rec: &[u8]) -> bool
    requires { AllByRecursion (λ p. p.at + p.len ≤ length rec.now) places.now }
    ensures { result ≡ passes_at test.now places.now rec.now }
{
    for place in places {
        if passes(test, &rec[place.at..place.at + place.len]) {
            return true;
        }
    }
    false
}

impl PreparedRule {
    /// A rule for the records of a definition.
    pub fn new(alloc: Global, rule: &Rule, def: &Definition) -> Result<PreparedRule, AllocError>
        ensures rule { IfOk result (λ prepared. prepared.rule ≡ rule.now) }
        ensures places { are_fixed def.now.fields ≡ true → IfOk result (HasPlaces def.now.fields) }
    {
        let _size = def.min_len();
        let places = if def.is_fixed() {
            places_of(alloc, rule, def.fields())?
        } else {
            Vec::new(alloc)
        };
        Ok(PreparedRule {
            rule: rule.clone()?,
            places,
        })
    }

    /// Whether the rule matches a record of a definition whose fields don't vary in length.
    pub fn matches_fixed(&self, def: &Definition, rec: &[u8]) -> bool
        requires is_record { IsSomeRecord def.now.fields rec.now }
        requires fixed { are_fixed def.now.fields ≡ true }
        requires places { HasPlaces def.now.fields self.now }
        ensures { result ≡ matches self.now.rule def.now.fields (values_of def.now.fields rec.now) }
    {
        passes_at(&self.rule.test, &self.places, rec)
    }
}
