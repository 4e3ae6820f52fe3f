// The lines of the records of a data set.
ghost use Rattle.std.specs.Prelude.{◌≡◌, ◌++◌, Bool, List, OnOk, OnErr};
ghost use Rattle.wire_spec.specs.Record.{AreSomeRecords};
ghost use Rattle.text_spec.specs.declared.element.Element.{Element};
ghost use Rattle.run_spec.specs.Records.{Record, AreRecordsOf};
ghost use Rattle.prepared_lines.specs.Front.{GrowsByFront};
ghost use Rattle.json_output.specs.Printed.{records_text};
ghost use Rattle.json_output.specs.Suits.{IsOf, Suits};

use crate::prepared::Prepared;
use prepared_lines::Lines;
use record_iter::records;
use std::alloc::AllocError;
use template_def::Definition;

/// Puts the lines of a body's records behind the text, and none where the body isn't records of the definition. Where memory
/// is refused the lines of the first records are put. It isn't inlined, so that its loops have the registers for themselves.
#[inline(never)]
pub fn put_records(
    def: &Definition,
    prepared: &Prepared,
    body: &[u8],
    lines: &mut Lines,
) -> Result<(), AllocError>
    requires { IsOf def.now prepared.now }
    ensures ok { OnOk result ((options : Bool) (table : List Element) (records : List Record) → Suits options table def.now prepared.now → AreRecordsOf def.now body.now records
        → lines.new ≡ lines.old ++ records_text options table def.now records) }
    ensures none { (AreSomeRecords def.now.fields body.now → ⊥) → lines.new ≡ lines.old }
    ensures err { OnErr result ((options : Bool) (table : List Element) (records : List Record) → Suits options table def.now prepared.now → AreRecordsOf def.now body.now records
        → GrowsByFront lines.old lines.new (records_text options table def.now records)) }
{
    let Ok(walk) = records(def, body) else {
        return Ok(());
    };
    for rec in walk {
        prepared.put_line(def, rec, lines)?;
    }
    Ok(())
}
