// Where the value of a field stands in its record.
ghost use Rattle.std.specs.Prelude.{◌≡◌, ◌≤◌, None, length, drop};
ghost use Rattle.wire_spec.specs.Size.{value_size};
ghost use Rattle.wire_spec.specs.Values.{lead};
ghost use Rattle.record_iter.specs.Place.{IsValuePlace};

use crate::size::{behind, value_size};
use wire_spec::numbers::{LONG_LENGTH, LONG_LENGTH_OCTETS, VARIABLE_LENGTH};

/// Where the value of a field stands: the octet of the record at which it begins, behind its length where that varies,
/// and the number of its octets. The next field begins where it ends.
#[derive(Clone, Copy, Debug, PartialEq, Eq, PartialOrd, Ord, Hash)]
pub struct ValuePlace {
    pub at: usize,
    pub len: usize,
}

/// The octets before the value that begins here: its length in one octet or in three, or none.
fn lead(len: u16, octets: &[u8]) -> usize
    requires { value_size len octets.now ≡ None → ⊥ }
    ensures { result ≡ lead len octets.now }
{
    if len != VARIABLE_LENGTH {
        return 0;
    }
    if octets[0] < LONG_LENGTH {
        1
    } else {
        LONG_LENGTH_OCTETS
    }
}

/// The place of the value of a field, by the field's length and the octet of the record at which the field begins
/// (RFC 7011, section 7). The record isn't borrowed any more, so that the value can be changed where it stands.
pub fn value_place(len: u16, octets: &[u8], at: usize) -> ValuePlace
    requires inside { at ≤ length octets.now }
    requires whole { value_size len (drop at octets.now) ≡ None → ⊥ }
    ensures { IsValuePlace len octets.now at result }
{
    let rest = behind(octets, at);
    let lead = lead(len, rest);
    match value_size(len, rest) {
        Some(size) => ValuePlace {
            at: at + lead,
            len: size - lead,
        },
        None => ValuePlace { at, len: 0 },
    }
}
