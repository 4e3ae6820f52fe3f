// The line of one record, for whoever prints no other of its definition.
ghost use Rattle.std.specs.Prelude.{◌≡◌, OnOk, OnErr};
ghost use Rattle.wire_spec.specs.Record.{IsSomeRecord};
ghost use Rattle.json_output.specs.Printed.{PutsRecord, PutsFront};

use crate::prepared::Prepared;
use col_base::{Octets, WantOfMemory};
use element_table::Elements;
use prepared_lines::Lines;
use std::alloc::Global;
use template_def::Definition;

/// Appends the line of a record, if it is printed: with `options` false nothing is printed of the record of an options
/// template. It prepares the definition and writes the one record: for several, keep a `Prepared`. Where memory is refused a
/// front of the line is appended, which may be none of it.
pub fn put_record(
    alloc: Global,
    options: bool,
    elements: &Elements,
    def: &Definition,
    rec: &[u8],
    out: &mut Octets,
) -> Result<(), WantOfMemory>
    requires { IsSomeRecord def.now.fields rec.now }
    ensures ok { OnOk result (PutsRecord options elements.now def.now rec.now out.old out.new) }
    ensures err { OnErr result (PutsFront options elements.now def.now rec.now out.old out.new) }
{
    let prepared = Prepared::new(alloc, options, elements, def)?;
    let mut lines = Lines::new(alloc);
    prepared.put_record(def, rec, &mut lines)?;
    out.extend(lines.as_slice())?;
    Ok(())
}
