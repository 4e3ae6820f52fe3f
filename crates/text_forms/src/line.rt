// The lines of the records of one definition, at their places in octets.
ghost use Rattle.std.specs.Prelude.{◌≡◌, ◌++◌, Bool, List, IfOk, OnOk, length, map};
ghost use Rattle.std.specs.List.{AllByRecursion, flat_map};
ghost use Rattle.wire_spec.specs.declared.field.FieldSpec.{FieldSpec};
ghost use Rattle.wire_spec.specs.Content as content;
ghost use Rattle.text_spec.specs.declared.element.Element.{Element};
ghost use Rattle.text_spec.specs.View.{set_line, view_line};
ghost use Rattle.pipeline_message.specs.Items.{IsRecordAt, record_at};
ghost use Rattle.json_output.specs.Printed.{records_text};
ghost use Rattle.json_output.specs.Suits.{IsOf, Suits};
ghost use Rattle.viewer_output.specs.View.{Shows};

use crate::kind::TextKind;
use col_base::{Octets, WantOfMemory};
use element_table::Elements;
use json_output::Prepared;
use pipeline_message::{Place, octets_at};
use prepared_lines::{Lines, PreparedLine};
use std::alloc::{AllocError, Global};
use template_def::Definition;
use viewer_output::{prepare_view, put_set};

/// How the records of a definition are printed.
#[derive(Drop)]
pub enum Line {
    Json(Prepared),
    View(PreparedLine),
}

/// Puts lines of JSON. It isn't inlined, so that its loop has the registers for itself.
#[inline(never)]
fn put_json(
    def: &Definition,
    prepared: &Prepared,
    octets: &[u8],
    places: &[Place],
    lines: &mut Lines,
) -> Result<(), AllocError>
    requires of { IsOf def.now prepared.now }
    requires sound { AllByRecursion (IsRecordAt def.now.fields octets.now) places.now }
    ensures { OnOk result ((options : Bool) (table : List Element) → Suits options table def.now prepared.now
        → lines.new ≡ lines.old ++ records_text options table def.now (map (record_at def.now.fields octets.now) places.now)) }
{
    for place in places {
        prepared.put_record(def, octets_at(octets, *place), lines)?;
    }
    Ok(())
}

/// Puts the lines of a listing.
#[inline(never)]
fn put_view(
    line: &PreparedLine,
    octets: &[u8],
    places: &[Place],
    lines: &mut Lines,
) -> Result<(), AllocError>
    requires sound { AllByRecursion (IsRecordAt line.now.fields octets.now) places.now }
    ensures { OnOk result ((table : List Element) (fields : List FieldSpec) → Shows table fields line.now
        → lines.new ≡ lines.old ++ flat_map (λ r. view_line table fields r.values) (map (record_at fields octets.now) places.now)) }
{
    for place in places {
        line.put_record(octets_at(octets, *place), lines)?;
    }
    Ok(())
}

/// Puts the line of a set, by way of a room.
fn put_set_line(
    template: u16,
    records: u32,
    room: &mut Octets,
    lines: &mut Lines,
) -> Result<(), WantOfMemory>
    ensures { OnOk result (lines.new ≡ lines.old ++ set_line template records) }
{
    room.clear();
    put_set(template, records, room)?;
    lines.extend(room.as_slice())?;
    Ok(())
}

impl Line {
    ghost use Rattle.text_forms.specs.Line.{LineFits};
    ghost use Rattle.text_forms.specs.Kind.{set_in, set_text};

    /// Prepares the lines of a definition's records.
    pub fn new(
        alloc: Global,
        kind: TextKind,
        elements: &Elements,
        def: &Definition,
    ) -> Result<Line, WantOfMemory>
        ensures { IfOk result (LineFits kind elements.now def.now) }
    {
        match kind {
            TextKind::Json { options } => {
                Ok(Line::Json(Prepared::new(alloc, options, elements, def)?))
            }
            TextKind::View => Ok(Line::View(prepare_view(alloc, elements, def)?)),
        }
    }

    /// Puts the text of a set of this Template ID, and answers how many records it has.
    pub fn put(
        &self,
        def: &Definition,
        template: u16,
        octets: &[u8],
        places: &[Place],
        room: &mut Octets,
        lines: &mut Lines,
    ) -> Result<u32, WantOfMemory>
        requires fits { (kind : TextKind) × (table : List Element) × LineFits kind table def.now self.now }
        requires sound { AllByRecursion (IsRecordAt def.now.fields octets.now) places.now }
        ensures count { IfOk result (λ count. count ≡ length places.now) }
        ensures text { OnOk result ((kind : TextKind) (table : List Element) → LineFits kind table def.now self.now → lines.new ≡ lines.old ++ set_text kind table (set_in def.now template octets.now places.now)) }
    {
        let Ok(count) = u32::try_from(places.len()) else {
            return Err(WantOfMemory);
        };
        match self {
            Line::Json(prepared) => put_json(def, prepared, octets, places, lines)?,
            Line::View(line) => {
                put_set_line(template, count, room, lines)?;
                put_view(line, octets, places, lines)?;
            }
        }
        Ok(count)
    }
}
