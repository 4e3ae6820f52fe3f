// The line and the status of what came of the texts of a description.
ghost use Rattle.std.specs.Prelude.{◌≡◌, ℕ, List, Result, IfOk};
ghost use Rattle.site_io.specs.declared.outside.OutsideFault.{OutsideFault};
ghost use Rattle.config_spec.specs.First.{fault_text};
ghost use Rattle.element_spec.specs.Faults as elements;
ghost use Rattle.call_spec.specs.Lines.{named_line, elements_head, fine_text, description_start, refusal_line};
ghost use Rattle.call_spec.specs.Plan.{no_parties};
ghost use Rattle.call_spec.specs.Status.{said_code, refusal_code};
ghost use Rattle.run_lines.specs.Says.{Says};
ghost use Rattle.described_texts.specs.Read.{reason_of};
ghost use Rattle.described_texts.specs.Reports.{ReportsRefusal};

use crate::verdict::Refusal;
use col_base::{Octets, Text};
use element_table::{self, TableFault};
use run_lines::{
    Piece, elements_head, named_line, said_code, say, say_named, say_piece, wanted_code,
};
use site_io::{OutsideFault, Site};
use startup_config::{ConfFault, fault_text};
use std::alloc::{AllocError, Global};

/// The line of a description's fault.
fn description_line(alloc: Global, fault: &ConfFault) -> Result<Octets, AllocError>
    ensures { IfOk result (λ line. line ≡ named_line description_start (fault_text fault.now)) }
{
    let text = fault_text(alloc, fault)?;
    named_line(alloc, Piece::Description.octets(), text.as_bytes())
}

/// The line of an element file's fault.
fn elements_line(alloc: Global, name: &Text, fault: &TableFault) -> Result<Octets, AllocError>
    ensures { IfOk result (λ line. line ≡ named_line (elements_head name.now) (elements.fault_text fault.now)) }
{
    let head = elements_head(alloc, name.as_str().as_bytes())?;
    let text = element_table::fault_text(alloc, fault)?;
    named_line(alloc, head.as_slice(), text.as_bytes())
}

/// Says a line, unless memory was wanted for it.
fn say_line<S: Site>(line: Result<Octets, AllocError>, site: &mut S) -> Result<(), OutsideFault>
    ensures { (text : List ℕ) → IfOk line (λ l. l ≡ text) → Says (S.seen site.old) (S.seen site.new) text result }
{
    let Ok(line) = line else {
        return Err(OutsideFault::NoMemory);
    };
    say(line.as_slice(), site)
}

/// Says the line of a refusal.
fn say_refusal<S: Site>(alloc: Global, refusal: &Refusal, site: &mut S) -> Result<(), OutsideFault>
    ensures { Says (S.seen site.old) (S.seen site.new) (refusal_line no_parties (reason_of refusal.now)) result }
{
    match refusal {
        Refusal::NoText(name) => say_named(alloc, Piece::Source, name.as_str().as_bytes(), site),
        Refusal::BadDescription(fault) => say_line(description_line(alloc, fault), site),
        Refusal::BadElements(name, fault) => say_line(elements_line(alloc, name, fault), site),
        Refusal::Memory => say_piece(Piece::Memory, site),
    }
}

fn refusal_code(refusal: &Refusal) -> u8
    ensures { result ≡ refusal_code (reason_of refusal.now) }
{
    match refusal {
        Refusal::NoText(_) => 3,
        Refusal::BadDescription(_) | Refusal::BadElements(_, _) => 2,
        Refusal::Memory => 6,
    }
}

/// Says that there is no fault, and answers the status: 0, or 4 where that can't be said.
pub fn report_fine<S: Site>(site: &mut S) -> u8
    ensures { (said : Result (Unit {0}) OutsideFault) × Says (S.seen site.old) (S.seen site.new) fine_text said × (result ≡ said_code said) }
{
    let said = say_piece(Piece::Fine, site);
    said_code(said)
}

/// Says the line of a refusal, and answers its status: 2 for a fault of the description or of an element file, 3 for a
/// text that can't be read, and 6 where memory was wanted, for the line too. A line that can't be said changes none of
/// them.
pub fn report_refusal<S: Site>(alloc: Global, refusal: &Refusal, site: &mut S) -> u8
    ensures { ReportsRefusal no_parties (reason_of refusal.now) (S.seen site.old) (S.seen site.new) result }
{
    let said = say_refusal(alloc, refusal, site);
    refusal_code(refusal).max(wanted_code(said))
}
