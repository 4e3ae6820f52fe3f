// What goes to an output: the lines of a message, and the write that takes them.
ghost use Rattle.std.specs.Prelude.{◌≡◌, ℕ, List, None, Some, IfOk, OnOk, OnErr, MatchOption};
ghost use Rattle.run_spec.specs.Outcome.{Outcome};
ghost use Rattle.run_spec.specs.Meaning.{IsOutcomeBy};
ghost use Rattle.file_lines.specs.Texts.{PutsBody, Clears, Flushes};

use crate::builtin::BuiltinElements;
use crate::form::Forms;
use json_output::Lines;
use site_io::{OutsideFault, Sink};
use std::alloc::{AllocError, Global};
use std::sync::Arc;
use template_def::Definition;

/// The lines of the message that is decoded, and why the output ended, if it did: then no line is put any more. The
/// lines keep their memory from message to message.
#[derive(Drop)]
pub struct Texts {
    alloc: Global,
    elements: BuiltinElements,
    lines: Lines,
    pub fault: Option<OutsideFault>,
}

impl Texts {
    /// No line. It knows the built-in elements.
    pub fn new(alloc: Global) -> Result<Texts, AllocError>
        ensures { IfOk result (λ texts. texts.fault ≡ None) }
    {
        Ok(Texts {
            alloc,
            elements: BuiltinElements::new(alloc)?,
            lines: Lines::new(alloc),
            fault: None,
        })
    }

    /// Puts the lines of a body's records, and none where the body isn't records. Where memory is wanted the output
    /// ends.
    pub fn put_body(
        &mut self,
        forms: &mut Forms,
        domain: u32,
        id: u16,
        definition: &Arc<Definition>,
        body: &[u8],
    )
        ensures { (o : Outcome) → IsOutcomeBy definition.now.value id body.now o → PutsBody self.old self.new o }
    {
        if self.fault.is_some() {
            return;
        }
        let put = forms.put(
            self.alloc,
            &self.elements,
            domain,
            id,
            definition,
            body,
            &mut self.lines,
        );
        if put.is_err() {
            self.fault = Some(OutsideFault::NoMemory);
        }
    }

    /// Lets go of the lines.
    pub fn clear(&mut self)
        ensures { Clears self.old self.new }
    {
        self.lines.clear();
    }

    /// Writes the lines, if there are any, in one write. Where it fails the output ends.
    pub fn flush<K: Sink>(&mut self, sink: &mut K)
        ensures { Flushes K.held K.faults self.old self.new sink.old sink.new }
    {
        if self.fault.is_some() || self.lines.as_slice().is_empty() {
            return;
        }
        if let Err(fault) = sink.write(self.lines.as_slice()) {
            self.fault = Some(fault);
        }
    }
}
