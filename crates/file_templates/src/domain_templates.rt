// The templates of one observation domain of a file (RFC 7011, sections 8 and 8.1).
ghost use Rattle.std.specs.Prelude.{◌≡◌, ◌⊎◌, ℕ, List, None, Some, IfOk, OnOk, IfSome, MatchOption, fold};
ghost use Rattle.col_base.specs.declared.base.Transport.TheVariants.{File};
ghost use Rattle.wire_spec.specs.Content.{Touch as Touched};
ghost use Rattle.wire_spec.specs.Content.Part.{Touches};
ghost use Rattle.wire_spec.specs.WellFormed.{IsWellFormed};
ghost use Rattle.template_spec.specs.Defined.{DefinesWell};
ghost use Rattle.template_spec.specs.Valid.{touched};
ghost use Rattle.template_manager.specs.Kinds.{touch_of};
ghost use Rattle.ipfix_reader.specs.Walk.{touch_by, RawSays};
ghost use Rattle.file_templates.specs.TemplateRecords.{StandsForSome};

use col_base::{Lifetimes, Transport, WantOfMemory};
use ipfix_reader::{RawSet, RawTemplate, RawTouch, template_records};
use std::alloc::Global;
use std::sync::Arc;
use template_def::Definition;
use template_manager::{Manager, Resolved, Touch};

/// In files definitions have no lifetime, and no message is late: a manager asks for these numbers over UDP alone.
const NO_LIFETIMES: Lifetimes = Lifetimes {
    template: 0,
    options: 0,
    late: 0,
};

/// The manager of one domain of a file. It stands for some template records, whose definitions are well formed.
#[derive(Drop)]
pub struct DomainTemplates {
    manager: Manager,
    ghost of_file: { manager.transport ≡ File },
    ghost stands: { ∥ StandsForSome manager ∥₁ },
}

/// What a template record does, with its definition if it has one.
fn read_touch(alloc: Global, raw: RawTemplate<'_>) -> Result<Touch, WantOfMemory>
    ensures says { IfOk result (λ touch. touch_of touch ≡ touch_by raw.entry) }
    ensures well_formed { IfOk result (λ touch. DefinesWell (touch_of touch)) }
{
    match raw.touch() {
        RawTouch::Define(raw) => {
            let definition = Definition::read(alloc, raw.kind, raw.scope, raw.specs)?;
            let definition = Arc::new(alloc, definition)?;
            Ok(Touch::Define(raw.id, definition))
        }
        RawTouch::Withdraw(id) => Ok(Touch::Withdraw(id)),
        RawTouch::WithdrawAll(kind) => Ok(Touch::WithdrawAll(kind)),
    }
}

impl DomainTemplates {
    ghost use Rattle.file_templates.specs.DomainTemplates.{definition_of};

    /// No definition of any ID. It takes no memory.
    pub fn new(alloc: Global) -> Self
        ensures { (id : ℕ) → definition_of result id ≡ None }
    {
        DomainTemplates {
            manager: Manager::new(alloc, Transport::File, NO_LIFETIMES),
        }
    }

    /// A message of this export time arrived.
    pub fn arrived(&mut self, export: u32)
        ensures { (id : ℕ) → definition_of self.new id ≡ definition_of self.old id }
    {
        self.manager.arrived(export);
    }

    /// The definition of an ID. It takes no memory.
    pub fn find(&self, export: u32, id: u16) -> Option<&Arc<Definition>>
        ensures found { MatchOption result (definition_of self.now id ≡ None) (λ d. definition_of self.now id ≡ Some d.now.value) }
        ensures well_formed { IfSome result (λ d. IsWellFormed d.now.value) }
    {
        match self.manager.resolve(export, id) {
            Resolved::Template(definition) => Some(definition),
            Resolved::NoTemplate => None,
        }
    }

    /// Takes what a template record does. Where memory is wanted nothing changes.
    fn take(&mut self, alloc: Global, export: u32, raw: RawTemplate<'_>) -> Result<(), WantOfMemory>
        ensures { OnOk result ((id : ℕ) → definition_of self.new id ≡ touched id (definition_of self.old id) (touch_by raw.entry)) }
    {
        let touch = read_touch(alloc, raw)?;
        self.manager.take(touch, export)?;
        Ok(())
    }

    /// Takes the template records of a set, in order. Where memory is wanted some of them may be taken.
    pub fn take_set(
        &mut self,
        alloc: Global,
        export: u32,
        set: RawSet<'_>,
    ) -> Result<(), WantOfMemory>
        requires { (set.id ≡ 2) ⊎ (set.id ≡ 3) }
        ensures { OnOk result ((touches : List Touched) × RawSays set.entry (Touches touches)
            × ((id : ℕ) → definition_of self.new id ≡ fold (touched id) (definition_of self.old id) touches)) }
    {
        for raw in template_records(set) {
            self.take(alloc, export, raw)?;
        }
        Ok(())
    }
}
