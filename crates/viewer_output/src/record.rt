// Lines of records.
ghost use Rattle.std.specs.Prelude.{◌≡◌, ◌≤◌, IfOk, OnErr, OnOk, take, zip};
ghost use Rattle.std.specs.List.{join_by};
ghost use Rattle.wire_spec.specs.Record.{IsSomeRecord};
ghost use Rattle.text_spec.specs.Marks.{four_spaces, line_feed, space};
ghost use Rattle.text_spec.specs.View.{field_text};
ghost use Rattle.prepared_lines.specs.Grows.{GrowsBy};
ghost use Rattle.viewer_output.specs.View.{Shows, PutsView};

use crate::field::put_field;
use col_base::{Octets, WantOfMemory};
use element_table::Elements;
use prepared_lines::{Draft, Lines, PreparedLine};
use std::alloc::{AllocError, Global};
use template_def::Definition;
use wire_spec::FieldSpec;

/// Goes on with all fields.
fn put_fields(
    alloc: Global,
    elements: &Elements,
    fields: &[FieldSpec],
    draft: &mut Draft,
) -> Result<(), WantOfMemory>
    requires { draft.old.fields ≡ fields.now }
    ensures { OnOk result (GrowsBy draft.old draft.new (λ values. join_by (field_text elements.now) space (zip fields.now values))) }
{
    for number in 0..fields.len() {
        put_field(alloc, elements, fields[number], number, draft)?;
    }
    Ok(())
}

/// Goes on with what begins a record's line.
#[tactic(auto, unfolding(text_spec::specs::Marks::four_spaces))]
fn put_start(draft: &mut Draft) -> Result<(), AllocError>
    ensures { OnOk result (GrowsBy draft.old draft.new (λ _. four_spaces)) }
{
    draft.put_text(b"    ")
}

/// Goes on with what ends a line.
#[tactic(auto, unfolding(text_spec::specs::Marks::line_feed))]
fn put_end(draft: &mut Draft) -> Result<(), AllocError>
    ensures { OnOk result (GrowsBy draft.old draft.new (λ _. line_feed)) }
{
    draft.put_text(b"\n")
}

/// Prepares the line of the records of a definition: four spaces, and the fields in order with a space between, each its
/// name, `=` and its value.
pub fn prepare_view(
    alloc: Global,
    elements: &Elements,
    def: &Definition,
) -> Result<PreparedLine, WantOfMemory>
    ensures { IfOk result (λ line. Shows elements.now def.now.fields line) }
{
    let mut draft = Draft::new(alloc, def.fields())?;
    put_start(&mut draft)?;
    put_fields(alloc, elements, def.fields(), &mut draft)?;
    put_end(&mut draft)?;
    Ok(draft.finish()?)
}

/// Appends the line of one record of a definition. Who lists many prepares it once, by `prepare_view`. Where memory is
/// refused nothing is appended.
pub fn put_view_record(
    alloc: Global,
    elements: &Elements,
    def: &Definition,
    rec: &[u8],
    out: &mut Octets,
) -> Result<(), WantOfMemory>
    requires { IsSomeRecord def.now.fields rec.now }
    ensures ok { OnOk result (PutsView elements.now def.now.fields rec.now out.old out.new) }
    ensures err { OnErr result (out.new ≡ out.old) }
{
    let line = prepare_view(alloc, elements, def)?;
    let mut lines = Lines::new(alloc);
    line.put_record(rec, &mut lines)?;
    out.extend(lines.as_slice())?;
    Ok(())
}
