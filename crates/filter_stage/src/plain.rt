// A filter by its table.
ghost use Rattle.std.specs.Prelude.{◌≡◌};
ghost use Rattle.wire_spec.specs.Record.{IsSomeRecord};
ghost use Rattle.wire_spec.specs.Values.{values_of};
ghost use Rattle.act_spec.specs.Filter.{keeps, matches};

use crate::check::field_passes;
use config_spec::{FilterTable, Rule};
use record_iter::fields;
use template_def::Definition;

/// Whether some field of a record has the rule's element, and passes its test.
pub fn matches(rule: &Rule, def: &Definition, rec: &[u8]) -> bool
    requires { IsSomeRecord def.now.fields rec.now }
    ensures { result ≡ matches rule.now def.now.fields (values_of def.now.fields rec.now) }
{
    for found in fields(def, rec) {
        if field_passes(rule, found.spec, found.value) {
            return true;
        }
    }
    false
}

/// Whether a filter keeps a record: the first rule that matches it decides, and where none does, the default.
pub fn keeps(table: &FilterTable, def: &Definition, rec: &[u8]) -> bool
    requires { IsSomeRecord def.now.fields rec.now }
    ensures { result ≡ keeps table.now def.now.fields (values_of def.now.fields rec.now) }
{
    for rule in table.rules.as_slice() {
        if matches(rule, def, rec) {
            return rule.keep;
        }
    }
    table.default_keep
}
