// The values of an element in a line that is prepared: one, or a list of those of all its fields.
ghost use Rattle.std.specs.Prelude.{◌≡◌, ◌≤◌, ◌<◌, ◌+◌, ◌++◌, [], false, if◌then◌else◌, OnOk, length, get_or, take, drop, zip};
ghost use Rattle.std.specs.List.{flat_map, list_any, join_by};
ghost use Rattle.text_spec.specs.Fields.{pair_of, is_of, values_at};
ghost use Rattle.text_spec.specs.Json.{values_text};
ghost use Rattle.text_spec.specs.Marks.{comma, list_start, list_end};
ghost use Rattle.text_spec.specs.Value.{value_text};
ghost use Rattle.prepared_lines.specs.Grows.{GrowsBy};
ghost use Rattle.json_output.specs.Chain.{AreChains};

use crate::chains::Chains;
use prepared_lines::Draft;
use std::alloc::AllocError;
use text_spec::ElementType;
use wire_spec::FieldSpec;

#[tactic(auto, unfolding(text_spec::specs::Marks::comma))]
fn put_comma(draft: &mut Draft) -> Result<(), AllocError>
    ensures { OnOk result (GrowsBy draft.old draft.new (λ _. comma)) }
{
    draft.put_text(b",")
}

#[tactic(auto, unfolding(text_spec::specs::Marks::list_start))]
fn put_list_start(draft: &mut Draft) -> Result<(), AllocError>
    ensures { OnOk result (GrowsBy draft.old draft.new (λ _. list_start)) }
{
    draft.put_text(b"[")
}

#[tactic(auto, unfolding(text_spec::specs::Marks::list_end))]
fn put_list_end(draft: &mut Draft) -> Result<(), AllocError>
    ensures { OnOk result (GrowsBy draft.old draft.new (λ _. list_end)) }
{
    draft.put_text(b"]")
}

/// Goes on with a comma and the value of a field.
fn put_next(at: usize, kind: Option<ElementType>, draft: &mut Draft) -> Result<(), AllocError>
    requires { at < length draft.old.fields }
    ensures { OnOk result (GrowsBy draft.old draft.new (λ values. comma ++ value_text kind (get_or values at []))) }
{
    put_comma(draft)?;
    draft.put_value(at, kind)?;
    Ok(())
}

/// Goes on with the values of the other fields of an element, behind the first one, a comma before each.
fn put_others(
    field: FieldSpec,
    kind: Option<ElementType>,
    fields: &[FieldSpec],
    chains: &Chains,
    first: usize,
    draft: &mut Draft,
) -> Result<(), AllocError>
    requires fields { draft.old.fields ≡ fields.now }
    requires chains { AreChains fields.now chains.now }
    requires inside { first < length fields.now }
    requires is { field ≡ get_or fields.now first field }
    ensures { OnOk result (GrowsBy draft.old draft.new (λ values. flat_map (λ value. comma ++ value_text kind value) (values_at (pair_of field) (zip (drop (first + 1) fields.now) (drop (first + 1) values))))) }
{
    let mut next = chains.next(fields, first);
    while let Some(at) = next {
        put_next(at, kind, draft)?;
        next = chains.next(fields, at);
    }
    Ok(())
}

/// Goes on with a list of the values of an element, the first field of which stands at a place.
fn put_list(
    field: FieldSpec,
    kind: Option<ElementType>,
    fields: &[FieldSpec],
    chains: &Chains,
    at: usize,
    draft: &mut Draft,
) -> Result<(), AllocError>
    requires fields { draft.old.fields ≡ fields.now }
    requires chains { AreChains fields.now chains.now }
    requires inside { at < length fields.now }
    requires is { field ≡ get_or fields.now at field }
    ensures { OnOk result (GrowsBy draft.old draft.new (λ values. list_start ++ (value_text kind (get_or values at [])
        ++ flat_map (λ value. comma ++ value_text kind value) (values_at (pair_of field) (zip (drop (at + 1) fields.now) (drop (at + 1) values)))) ++ list_end)) }
{
    put_list_start(draft)?;
    draft.put_value(at, kind)?;
    put_others(field, kind, fields, chains, at, draft)?;
    put_list_end(draft)?;
    Ok(())
}

/// Goes on with the values of an element, the first field of which stands at a place: with the value, if it is the only one, or
/// with a list.
pub fn put_values(
    field: FieldSpec,
    kind: Option<ElementType>,
    fields: &[FieldSpec],
    chains: &Chains,
    at: usize,
    draft: &mut Draft,
) -> Result<(), AllocError>
    requires fields { draft.old.fields ≡ fields.now }
    requires chains { AreChains fields.now chains.now }
    requires inside { at < length fields.now }
    requires is { field ≡ get_or fields.now at field }
    requires first { list_any (is_of (pair_of field)) (take at fields.now) ≡ false }
    ensures { OnOk result (GrowsBy draft.old draft.new (λ values. values_text (value_text kind) (values_at (pair_of field) (zip fields.now values)))) }
{
    if chains.is_last(field, fields, at) {
        draft.put_value(at, kind)?;
        return Ok(());
    }
    put_list(field, kind, fields, chains, at, draft)?;
    Ok(())
}
