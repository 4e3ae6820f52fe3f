// Whether octets are specifiers that define records.
ghost use Rattle.std.specs.Prelude.{◌≡◌, ◌<◌, ◌↔◌, ℕ, IsTrue, MatchOption, length};
ghost use Rattle.wire_spec.specs.Message.{specifiers_size, shortest_of_specifiers};
ghost use Rattle.wire_spec.specs.Specifiers.{AreWellFormed};

use crate::specifier::split_field;

/// How many specifiers the octets are, and whether the shortest record has an octet. None exactly where they are no
/// specifiers.
fn count_fields(specs: &[u8]) -> Option<(usize, bool)>
    ensures whole { MatchOption result ((count : ℕ) → specifiers_size count specs.now ≡ length specs.now → ⊥)
        (λ found. specifiers_size found.0 specs.now ≡ length specs.now) }
    ensures some { MatchOption result ((count : ℕ) → specifiers_size count specs.now ≡ length specs.now → ⊥)
        (λ found. IsTrue found.1 ↔ (0 < shortest_of_specifiers found.0 specs.now)) }
{
    let mut rest = specs;
    let mut count = 0;
    let mut some = false;
    while let Some((field, after)) = split_field(rest) {
        count += 1;
        some = some || field.len != 0;
        rest = after;
    }
    if !rest.is_empty() {
        return None;
    }
    Some((count, some))
}

/// Whether octets are whole field specifiers, at least one, that define records with so many scope fields: no more
/// than there are fields, and the shortest record has an octet.
pub fn well_formed(scope: u16, specs: &[u8]) -> bool
    ensures { IsTrue result ↔ AreWellFormed scope specs.now }
{
    let Some((count, some)) = count_fields(specs) else {
        return false;
    };
    some && scope as usize <= count
}
