// Records of a definition, joined.
ghost use Rattle.std.specs.Prelude.{◌≡◌, true};
ghost use Rattle.wire_spec.specs.Record.{IsSomeRecord};

use record_iter::records;
use template_def::Definition;

/// Whether octets are one record of a definition, and nothing more.
pub fn is_one_record(def: &Definition, octets: &[u8]) -> bool
    ensures { result ≡ true → IsSomeRecord def.now.fields octets.now }
{
    let Ok(mut found) = records(def, octets) else {
        return false;
    };
    match found.next() {
        Some(first) => first.len() == octets.len(),
        None => false,
    }
}
