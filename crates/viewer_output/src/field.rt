// A field of a record's line, as it is prepared.
ghost use Rattle.std.specs.Prelude.{◌≡◌, ◌<◌, OnOk, length};
ghost use Rattle.text_spec.specs.Marks.{equals_sign};
ghost use Rattle.text_spec.specs.Name.{name_text, type_at};
ghost use Rattle.prepared_lines.specs.Grows.{GrowsBy};
ghost use Rattle.viewer_output.specs.View.{before_field, numbered_text};

use col_base::{Octets, WantOfMemory};
use element_table::{ElementType, Elements};
use prepared_lines::Draft;
use std::alloc::{AllocError, Global};
use value_text::put_name;
use wire_spec::FieldSpec;

/// Goes on with what stands before a field: a space, but before the first one.
#[tactic(auto, unfolding(text_spec::specs::Marks::space))]
fn put_before(number: usize, draft: &mut Draft) -> Result<(), AllocError>
    ensures { OnOk result (GrowsBy draft.old draft.new (λ _. before_field number)) }
{
    let before: &[u8] = if number == 0 { b"" } else { b" " };
    draft.put_text(before)
}

/// Goes on with the name of a field's element.
fn put_field_name(
    alloc: Global,
    elements: &Elements,
    field: FieldSpec,
    draft: &mut Draft,
) -> Result<(), WantOfMemory>
    ensures { OnOk result (GrowsBy draft.old draft.new (λ _. name_text elements.now field.pen field.id)) }
{
    let mut name = Octets::new(alloc);
    put_name(elements, field.pen, field.id, &mut name)?;
    draft.put_text(name.as_slice())?;
    Ok(())
}

/// Goes on with what stands between a name and its value.
#[tactic(auto, unfolding(text_spec::specs::Marks::equals_sign))]
fn put_equals(draft: &mut Draft) -> Result<(), AllocError>
    ensures { OnOk result (GrowsBy draft.old draft.new (λ _. equals_sign)) }
{
    draft.put_text(b"=")
}

/// The type of a field's element.
#[tactic(auto, unfolding(text_spec::specs::Name::type_at))]
fn type_of(elements: &Elements, field: FieldSpec) -> Option<ElementType>
    ensures { result ≡ type_at elements.now field.pen field.id }
{
    match elements.find(field.pen, field.id) {
        Some(element) => Some(element.kind),
        None => None,
    }
}

/// Goes on with a field, by its number.
pub fn put_field(
    alloc: Global,
    elements: &Elements,
    field: FieldSpec,
    number: usize,
    draft: &mut Draft,
) -> Result<(), WantOfMemory>
    requires { number < length draft.old.fields }
    ensures { OnOk result (GrowsBy draft.old draft.new (numbered_text elements.now field number)) }
{
    put_before(number, draft)?;
    put_field_name(alloc, elements, field, draft)?;
    put_equals(draft)?;
    draft.put_value(number, type_of(elements, field))?;
    Ok(())
}
