// Where the fields of each element stand. A definition may have many thousand fields, so that none is looked for among the
// others: one walk over them, from the last to the first, finds the next one of each.
ghost use Rattle.std.specs.Prelude.{◌≡◌, ◌<◌, ◌+◌, not, IfOk, length, get_or, take, drop};
ghost use Rattle.std.specs.List.{list_any};
ghost use Rattle.wire_spec.specs.declared.field.FieldSpec.{FieldSpec};
ghost use Rattle.text_spec.specs.Fields.{pair_of, is_of};

use indexmap::IndexMap;
use std::alloc::{AllocError, Global};
use wire_spec::FieldSpec;

/// The fields of each element as a chain, by their numbers.
#[derive(Drop)]
pub struct Chains {
    /// The first field of each element, by its enterprise number and ID.
    first: IndexMap<(u32, u16), usize>,
    /// For each field the next one of its element, if there is one.
    next: Vec<Option<usize>>,
}

impl Chains {
    ghost use Rattle.json_output.specs.Chain.{first_from, AreChains};

    /// The chains of fields.
    pub fn new(alloc: Global, fields: &[FieldSpec]) -> Result<Chains, AllocError>
        ensures { IfOk result (λ made. AreChains fields.now made) }
    {
        let mut first = IndexMap::new(alloc);
        let mut next = vec![in alloc; None; fields.len()]?;
        for at in (0..fields.len()).rev() {
            let field = fields[at];
            match first.insert((field.pen, field.id), at) {
                Ok(later) => next[at] = later,
                Err(_) => return Err(AllocError),
            }
        }
        Ok(Chains { first, next })
    }

    /// The next field of a field's element.
    pub fn next(&self, _fields: &[FieldSpec], at: usize) -> Option<usize>
        requires chains { AreChains _fields.now self.now }
        requires inside { at < length _fields.now }
        ensures { (d : FieldSpec) → result ≡ first_from (pair_of (get_or _fields.now at d)) _fields.now (at + 1) }
    {
        self.next[at]
    }

    /// Whether a field is the first of its element.
    pub fn is_first(&self, field: FieldSpec, fields: &[FieldSpec], at: usize) -> bool
        requires chains { AreChains fields.now self.now }
        requires inside { at < length fields.now }
        requires is { field ≡ get_or fields.now at field }
        ensures { result ≡ not (list_any (is_of (pair_of field)) (take at fields.now)) }
    {
        match self.first.get(&(field.pen, field.id)) {
            Some(first) => *first == at,
            None => false,
        }
    }

    /// Whether a field is the last of its element.
    pub fn is_last(&self, field: FieldSpec, fields: &[FieldSpec], at: usize) -> bool
        requires chains { AreChains fields.now self.now }
        requires inside { at < length fields.now }
        requires is { field ≡ get_or fields.now at field }
        ensures { result ≡ not (list_any (is_of (pair_of field)) (drop (at + 1) fields.now)) }
    {
        match self.next(fields, at) {
            Some(_) => false,
            None => true,
        }
    }
}
