// Goes over the fields of a record.
ghost use Rattle.std.specs.Prelude.{◌≡◌, ◌≤◌, ◌<◌, ◌+◌, ◌^◌, ◌++◌, [], ◌∷◌, ℕ, List, MatchOption, None, length};
ghost use Rattle.std.specs.Iterator.{at_most};
ghost use Rattle.wire_spec.specs.Record.{IsEncoded, IsSomeRecord};
ghost use Rattle.wire_spec.specs.Size.{value_size};
ghost use Rattle.record_iter.specs.Walk.{BeginsValue, GivesField};

use crate::size::value_size;
use crate::value::FieldValue;
use wire_spec::FieldSpec;
use wire_spec::numbers::{LONG_LENGTH, LONG_LENGTH_OCTETS, VARIABLE_LENGTH};

/// The value in the octets of a field: behind its length in one octet or in three, where that varies.
fn value_in(len: u16, octets: &[u8]) -> &[u8]
    requires { (value : List ℕ) × IsEncoded len octets.now value }
    ensures is { IsEncoded len octets.now result.now }
    ensures shorter { length result.now ≤ length octets.now }
{
    if len != VARIABLE_LENGTH {
        return octets;
    }
    if octets[0] < LONG_LENGTH {
        return &octets[1..];
    }
    &octets[LONG_LENGTH_OCTETS..]
}

/// The value of the first field, and what follows it.
fn split_value(len: u16, octets: &[u8]) -> (&[u8], &[u8])
    requires { value_size len octets.now ≡ None → ⊥ }
    ensures begins { BeginsValue len octets.now result.0.now result.1.now }
    ensures room { length result.0.now + length result.1.now ≤ length octets.now }
{
    match value_size(len, octets) {
        Some(size) => {
            let (first, rest) = octets.split_at(size);
            (value_in(len, first), rest)
        }
        None => (octets, octets),
    }
}

/// The first field, and the others.
fn split_fields(fields: &[FieldSpec]) -> Option<(FieldSpec, &[FieldSpec])>
    ensures { MatchOption result (fields.now ≡ []) (λ found. fields.now ≡ found.0 ∷ found.1.now) }
{
    match fields {
        [first, rest @ ..] => Some((*first, rest)),
        [] => None,
    }
}

/// Goes over the fields of a record, in order. It has the fields and the octets that are left, and their place in the
/// record.
#[derive(Drop)]
pub struct Fields<'a> {
    fields: &'a [FieldSpec],
    rest: &'a [u8],
    at: usize,
    ghost fits: { at + length rest.now < 2 ^ 63 },
    ghost whole: { ∥ IsSomeRecord fields.now rest.now ∥₁ },
}

impl<'a> Fields<'a> {
    /// Over one record.
    pub(crate) fn new(fields: &'a [FieldSpec], octets: &'a [u8]) -> Self
        requires { IsSomeRecord fields.now octets.now }
        ensures fields { result.fields.now ≡ fields.now }
        ensures rest { result.rest.now ≡ octets.now }
        ensures at { result.at ≡ 0 }
    {
        Fields {
            fields,
            rest: octets,
            at: 0,
        }
    }
}

impl<'a> Iterator for Fields<'a> {
    ghost use Rattle.record_iter.specs.Left.{fields_left, octets_left, place_of};

    type Item = FieldValue<'a>;

    ghost next_gives = { λ s r t. GivesField (fields_left s) (place_of s) (octets_left s) r (fields_left t) (place_of t) (octets_left t) };

    ghost remaining = { λ s. at_most (length (fields_left s)) };

    fn next(&mut self) -> Option<FieldValue<'a>> {
        let Some((field, after)) = split_fields(self.fields) else {
            return None;
        };
        let (value, rest) = split_value(field.len, self.rest);
        let to = self.at + (self.rest.len() - rest.len());
        self.fields = after;
        self.rest = rest;
        self.at = to;
        Some(FieldValue {
            spec: field,
            at: to - value.len(),
            value,
        })
    }
}
