// The members of a line that is prepared: the different elements of the fields, each with all its values.
ghost use Rattle.std.specs.Prelude.{◌≡◌, ◌<◌, ◌++◌, ◌&&◌, [], not, false, if◌then◌else◌, OnOk, IfOk, length, get_or, take, zip};
ghost use Rattle.std.specs.List.{flat_map, list_any};
ghost use Rattle.text_spec.specs.Fields.{pair_of, is_of, is_padding, printed_pairs};
ghost use Rattle.text_spec.specs.Json.{member_name, member_by, text_at};
ghost use Rattle.text_spec.specs.Marks.{before_name, after_name};
ghost use Rattle.text_spec.specs.Name.{name_text, type_at};
ghost use Rattle.prepared_lines.specs.Grows.{GrowsBy};
ghost use Rattle.json_output.specs.Chain.{AreChains};

use crate::chains::Chains;
use crate::values::put_values;
use col_base::Octets;
use element_table::Elements;
use prepared_lines::Draft;
use std::alloc::{AllocError, Global};
use text_spec::ElementType;
use value_text::put_name;
use wire_spec::FieldSpec;

/// The number of IANA's element paddingOctets.
const PADDING: u16 = 210;

/// Whether a field is of the element that fills records up.
fn is_padding(field: FieldSpec) -> bool
    ensures { result ≡ is_padding (pair_of field) }
{
    field.pen == 0 && field.id == PADDING
}

/// The name of an element, as a member of a line has it.
#[tactic(auto, unfolding(text_spec::specs::Marks::before_name, text_spec::specs::Marks::after_name))]
fn member_name(alloc: Global, elements: &Elements, field: FieldSpec) -> Result<Octets, AllocError>
    ensures { IfOk result (λ made. made ≡ member_name elements.now (pair_of field)) }
{
    let mut name = Octets::from_slice(alloc, b",\"")?;
    if put_name(elements, field.pen, field.id, &mut name).is_err() {
        return Err(AllocError);
    }
    name.extend(b"\":")?;
    Ok(name)
}

/// The type of an element, if the table has it.
#[tactic(auto, unfolding(text_spec::specs::Name::type_at))]
fn type_of(elements: &Elements, field: FieldSpec) -> Option<ElementType>
    ensures { result ≡ type_at elements.now field.pen field.id }
{
    match elements.find(field.pen, field.id) {
        Some(element) => Some(element.kind),
        None => None,
    }
}

/// Goes on with an element, the first field of which stands at a place: its name and its values.
fn put_member(
    alloc: Global,
    elements: &Elements,
    field: FieldSpec,
    fields: &[FieldSpec],
    chains: &Chains,
    at: usize,
    draft: &mut Draft,
) -> Result<(), AllocError>
    requires fields { draft.old.fields ≡ fields.now }
    requires chains { AreChains fields.now chains.now }
    requires inside { at < length fields.now }
    requires is { field ≡ get_or fields.now at field }
    requires first { list_any (is_of (pair_of field)) (take at fields.now) ≡ false }
    ensures { OnOk result (GrowsBy draft.old draft.new (λ values. member_by (text_at elements.now) elements.now (zip fields.now values) (pair_of field))) }
{
    let name = member_name(alloc, elements, field)?;
    draft.put_text(name.as_slice())?;
    put_values(field, type_of(elements, field), fields, chains, at, draft)?;
    Ok(())
}

/// Whether a field is printed, and the first of its element.
fn is_printed_first(field: FieldSpec, fields: &[FieldSpec], chains: &Chains, at: usize) -> bool
    requires chains { AreChains fields.now chains.now }
    requires inside { at < length fields.now }
    requires is { field ≡ get_or fields.now at field }
    ensures { result ≡ (not (is_padding (pair_of field)) && not (list_any (is_of (pair_of field)) (take at fields.now))) }
{
    !is_padding(field) && chains.is_first(field, fields, at)
}

/// Goes on with the element of a field, if it is printed and this is its first field.
fn put_if_first(
    alloc: Global,
    elements: &Elements,
    field: FieldSpec,
    fields: &[FieldSpec],
    chains: &Chains,
    at: usize,
    draft: &mut Draft,
) -> Result<(), AllocError>
    requires fields { draft.old.fields ≡ fields.now }
    requires chains { AreChains fields.now chains.now }
    requires inside { at < length fields.now }
    requires is { field ≡ get_or fields.now at field }
    ensures { OnOk result (GrowsBy draft.old draft.new (λ values. if not (is_padding (pair_of field)) && not (list_any (is_of (pair_of field)) (take at fields.now))
        then member_by (text_at elements.now) elements.now (zip fields.now values) (pair_of field) else [])) }
{
    if is_printed_first(field, fields, chains, at) {
        put_member(alloc, elements, field, fields, chains, at, draft)?;
    }
    Ok(())
}

/// Goes on with all elements that are printed, by the chains of their fields.
fn put_each(
    alloc: Global,
    elements: &Elements,
    fields: &[FieldSpec],
    chains: &Chains,
    draft: &mut Draft,
) -> Result<(), AllocError>
    requires fields { draft.old.fields ≡ fields.now }
    requires chains { AreChains fields.now chains.now }
    ensures { OnOk result (GrowsBy draft.old draft.new (λ values. flat_map (member_by (text_at elements.now) elements.now (zip fields.now values)) (printed_pairs fields.now))) }
{
    for at in 0..fields.len() {
        let field = fields[at];
        put_if_first(alloc, elements, field, fields, chains, at, draft)?;
    }
    Ok(())
}

/// Goes on with all elements that are printed, in order of their first fields.
pub fn put_members(
    alloc: Global,
    elements: &Elements,
    fields: &[FieldSpec],
    draft: &mut Draft,
) -> Result<(), AllocError>
    requires { draft.old.fields ≡ fields.now }
    ensures { OnOk result (GrowsBy draft.old draft.new (λ values. flat_map (member_by (text_at elements.now) elements.now (zip fields.now values)) (printed_pairs fields.now))) }
{
    let chains = Chains::new(alloc, fields)?;
    put_each(alloc, elements, fields, &chains, draft)
}
