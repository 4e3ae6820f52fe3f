// Goes over the records of a body.
ghost use Rattle.std.specs.Prelude.{◌≡◌, ◌≤◌, ◌<◌, ◌++◌, MatchBool, MatchOption, None, length};
ghost use Rattle.std.specs.Iterator.{at_most};
ghost use Rattle.std.specs.Option.{option_copied};
ghost use Rattle.wire_spec.specs.Rows.{Begins};
ghost use Rattle.wire_spec.specs.Record.{IsSomeRecord, AreSomeRecords, shortest};
ghost use Rattle.wire_spec.specs.Size.{are_fixed, record_size};
ghost use Rattle.record_iter.specs.Walk.{GivesRecord};

use crate::size::{behind, record_size};
use template_def::Definition;
use wire_spec::FieldSpec;

/// A body isn't records with padding behind them.
#[derive(Clone, Copy, Debug, PartialEq, Eq)]
pub struct NotRecords;

/// Goes over the records of a body, in order, up to the padding. It has what is left of the body.
#[derive(Drop)]
pub struct Records<'a> {
    fields: &'a [FieldSpec],
    least: usize,
    is_fixed: bool,
    rest: &'a [u8],
    ghost some: { 0 < least },
    ghost shortest: { least ≡ shortest fields.now },
    ghost fixed: { is_fixed ≡ are_fixed fields.now },
    ghost whole: { ∥ AreSomeRecords fields.now rest.now ∥₁ },
}

impl<'a> Records<'a> {
    /// Over a body that is records.
    pub(crate) fn new(def: &'a Definition, body: &'a [u8]) -> Self
        requires { ∥ AreSomeRecords def.now.fields body.now ∥₁ }
        ensures fields { result.fields.now ≡ def.now.fields }
        ensures rest { result.rest.now ≡ body.now }
    {
        Records {
            fields: def.fields(),
            least: def.min_len() as usize,
            is_fixed: def.is_fixed(),
            rest: body,
        }
    }
}

/// The octets of the record that begins here. None exactly where it is cut.
fn first_record(fields: &[FieldSpec], octets: &[u8]) -> Option<usize>
    requires { 0 < shortest fields.now }
    ensures { MatchOption result (record_size fields.now octets.now ≡ None) (λ count. Begins (IsSomeRecord fields.now) octets.now count) }
{
    record_size(fields, octets)
}

/// Whether a body is records, the shortest of which has `least` octets.
pub fn are_records(fields: &[FieldSpec], least: usize, body: &[u8]) -> bool
    requires some { 0 < least }
    requires shortest { least ≡ shortest fields.now }
    ensures { MatchBool result (AreSomeRecords fields.now body.now) (AreSomeRecords fields.now body.now → ⊥) }
{
    let mut rest = body;
    while least <= rest.len() {
        let Some(count) = first_record(fields, rest) else {
            return false;
        };
        rest = behind(rest, count);
    }
    true
}

/// The first record, and what follows it. Where no field varies in length, no field is looked at.
fn split_record<'a>(
    fields: &[FieldSpec],
    least: usize,
    is_fixed: bool,
    octets: &'a [u8],
) -> (&'a [u8], &'a [u8])
    requires some { 0 < least }
    requires shortest { least ≡ shortest fields.now }
    requires fixed { is_fixed ≡ are_fixed fields.now }
    requires longer { least ≤ length octets.now }
    requires whole { ∥ AreSomeRecords fields.now octets.now ∥₁ }
    ensures joined { octets.now ≡ result.0.now ++ result.1.now }
    ensures first { IsSomeRecord fields.now result.0.now }
    ensures rest { ∥ AreSomeRecords fields.now result.1.now ∥₁ }
    ensures shorter { length result.1.now < length octets.now }
{
    if is_fixed {
        return octets.split_at(least);
    }
    match first_record(fields, octets) {
        Some(count) => octets.split_at(count),
        None => (octets, octets),
    }
}

impl<'a> Iterator for Records<'a> {
    ghost use Rattle.record_iter.specs.Left.{records_left, fields_of_each};

    type Item = &'a [u8];

    ghost next_gives = { λ s r t. GivesRecord (fields_of_each s) (records_left s) (option_copied r) (records_left t) × (fields_of_each t ≡ fields_of_each s) };

    ghost remaining = { λ s. at_most (length (records_left s)) };

    fn next(&mut self) -> Option<&'a [u8]> {
        if self.rest.len() < self.least {
            return None;
        }
        let (first, after) = split_record(self.fields, self.least, self.is_fixed, self.rest);
        self.rest = after;
        Some(first)
    }
}
