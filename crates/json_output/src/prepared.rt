// Lines of JSON of the records of a definition.
ghost use Rattle.std.specs.Prelude.{◌≡◌, Bool, List, IfOk, OnOk, OnErr};
ghost use Rattle.wire_spec.specs.Record.{IsSomeRecord};
ghost use Rattle.text_spec.specs.declared.element.Element.{Element};
ghost use Rattle.text_spec.specs.Json.{line_start};
ghost use Rattle.text_spec.specs.Marks.{line_end};
ghost use Rattle.run_spec.specs.Result.{is_printed};
ghost use Rattle.prepared_lines.specs.Grows.{GrowsBy};
ghost use Rattle.json_output.specs.Printed.{PutsRecord, IsJson};

use crate::member::put_members;
use col_base::Kind;
use element_table::Elements;
use prepared_lines::{Draft, Lines, PreparedLine};
use std::alloc::{AllocError, Global};
use template_def::Definition;

/// What is printed of the records of one definition. `line` is None where nothing is: for the records of an options template,
/// in an output that leaves them out.
#[derive(Drop)]
pub struct Prepared {
    line: Option<PreparedLine>,
}

/// Whether records of a kind are printed.
fn is_printed(options: bool, kind: Kind) -> bool
    ensures { result ≡ is_printed options kind }
{
    match kind {
        Kind::Template => true,
        Kind::Options => options,
    }
}

/// Goes on with what begins a line.
#[tactic(auto, unfolding(text_spec::specs::Marks::entry_start, text_spec::specs::Marks::options_start))]
fn put_start(kind: Kind, draft: &mut Draft) -> Result<(), AllocError>
    ensures { OnOk result (GrowsBy draft.old draft.new (λ _. line_start kind)) }
{
    match kind {
        Kind::Template => draft.put_text(b"{\"@type\":\"ipfix.entry\""),
        Kind::Options => draft.put_text(b"{\"@type\":\"ipfix.options\""),
    }
}

/// Goes on with what ends a line.
#[tactic(auto, unfolding(text_spec::specs::Marks::line_end))]
fn put_end(draft: &mut Draft) -> Result<(), AllocError>
    ensures { OnOk result (GrowsBy draft.old draft.new (λ _. line_end)) }
{
    draft.put_text(b"}\n")
}

/// The line of the records of a definition.
fn line_of(alloc: Global, elements: &Elements, def: &Definition) -> Result<PreparedLine, AllocError>
    ensures { IfOk result (λ line. IsJson elements.now def.now line) }
{
    let fields = def.fields();
    let mut draft = Draft::new(alloc, fields)?;
    put_start(def.kind(), &mut draft)?;
    put_members(alloc, elements, fields, &mut draft)?;
    put_end(&mut draft)?;
    let line = draft.finish()?;
    Ok(line)
}

impl Prepared {
    ghost use Rattle.json_output.specs.Suits.{IsOf, PutsBy, Suits};

    /// Prepares the lines of a definition's records, by the names and types of a table of elements. With `options` false
    /// nothing is printed of the records of an options template.
    pub fn new(
        alloc: Global,
        options: bool,
        elements: &Elements,
        def: &Definition,
    ) -> Result<Prepared, AllocError>
        ensures { IfOk result (λ made. Suits options elements.now def.now made) }
    {
        if !is_printed(options, def.kind()) {
            return Ok(Prepared { line: None });
        }
        let line = line_of(alloc, elements, def)?;
        Ok(Prepared { line: Some(line) })
    }

    /// Puts the line of a record behind the text, if there is one.
    #[inline(always)]
    pub(crate) fn put_line(
        &self,
        _def: &Definition,
        rec: &[u8],
        lines: &mut Lines,
    ) -> Result<(), AllocError>
        requires of { IsOf _def.now self.now }
        requires whole { IsSomeRecord _def.now.fields rec.now }
        ensures ok { OnOk result (PutsBy _def.now self.now rec.now lines.old lines.new) }
        ensures err { OnErr result (lines.new ≡ lines.old) }
    {
        match &self.line {
            Some(line) => line.put_record(rec, lines),
            None => Ok(()),
        }
    }

    /// Puts the line of a record, if it is printed, behind the text. Where memory is refused the text stays as it was.
    #[inline(always)]
    pub fn put_record(
        &self,
        def: &Definition,
        rec: &[u8],
        lines: &mut Lines,
    ) -> Result<(), AllocError>
        requires of { IsOf def.now self.now }
        requires whole { IsSomeRecord def.now.fields rec.now }
        ensures ok { OnOk result ((options : Bool) (table : List Element) → Suits options table def.now self.now → PutsRecord options table def.now rec.now lines.old lines.new) }
        ensures err { OnErr result (lines.new ≡ lines.old) }
    {
        self.put_line(def, rec, lines)?;
        Ok(())
    }
}
