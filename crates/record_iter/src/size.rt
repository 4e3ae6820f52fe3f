// How many octets values and records have.
ghost use Rattle.std.specs.Prelude.{◌≡◌, ◌≤◌, length, drop};
ghost use Rattle.wire_spec.specs.Size.{fits, value_size, variable_size, record_size};

use col_base::be16;
use wire_spec::FieldSpec;
use wire_spec::numbers::{LONG_LENGTH, LONG_LENGTH_OCTETS, VARIABLE_LENGTH};

/// So many octets, if they are there.
fn fits(count: usize, octets: &[u8]) -> Option<usize>
    ensures { result ≡ fits count octets.now }
{
    if octets.len() < count {
        return None;
    }
    Some(count)
}

/// The octets of a value with its length.
fn variable_size(octets: &[u8]) -> Option<usize>
    ensures { result ≡ variable_size octets.now }
{
    if octets.len() < 1 {
        return None;
    }
    let first = octets[0];
    if first < LONG_LENGTH {
        return fits(1 + first as usize, octets);
    }
    if octets.len() < LONG_LENGTH_OCTETS {
        return None;
    }
    fits(LONG_LENGTH_OCTETS + be16(octets, 1) as usize, octets)
}

/// The octets of the value that begins here, by its field's length. None exactly where it is cut.
pub fn value_size(len: u16, octets: &[u8]) -> Option<usize>
    ensures { result ≡ value_size len octets.now }
{
    if len == VARIABLE_LENGTH {
        variable_size(octets)
    } else {
        fits(len as usize, octets)
    }
}

/// What follows so many octets.
pub fn behind(octets: &[u8], count: usize) -> &[u8]
    requires { count ≤ length octets.now }
    ensures { result.now ≡ drop count octets.now }
{
    &octets[count..]
}

/// The octets of the record that begins here. None exactly where it is cut. Out of line, since a caller's loop over records
/// of fixed length loses registers to it otherwise.
#[inline(never)]
pub fn record_size(fields: &[FieldSpec], octets: &[u8]) -> Option<usize>
    ensures { result ≡ record_size fields.now octets.now }
{
    let mut rest = octets;
    let mut size = 0;
    for field in fields {
        let Some(first) = value_size(field.len, rest) else {
            return None;
        };
        rest = behind(rest, first);
        size += first;
    }
    Some(size)
}
