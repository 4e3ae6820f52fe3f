// What is kept from message to message.
ghost use Rattle.std.specs.Prelude.{◌≡◌, ◌<◌, List, length, IfErr, OnOk};
ghost use Rattle.config_spec.specs.declared.conf.StageWork.{StageWork};
ghost use Rattle.pipeline_message.specs.Items.{IsSoundSet};
ghost use Rattle.stage_chain.specs.Left.{AreLeftIn};

use crate::prepare::prepare_stages;
use col_base::SessionKey;
use kept_forms::KeptForms;
use pipeline_message::{DataMessage, DataSet};
use stage_chain::{Left, PreparedStage, Stage};
use std::alloc::Global;

/// What is kept from message to message: what the intermediates are prepared to for definitions, and a room for what is left
/// of a set.
#[derive(Drop)]
pub(crate) struct Rooms {
    prepared: KeptForms<Vec<PreparedStage>>,
    left: Left,
}

impl Rooms {
    ghost use Rattle.kept_forms.specs.Kept.{session_number, Forgets};
    ghost use Rattle.message_stages.specs.Sets.{AreReady};

    /// Nothing. It takes no memory.
    pub fn new(alloc: Global) -> Rooms
        ensures { (works : List StageWork) → AreReady works result }
    {
        Rooms {
            prepared: KeptForms::new(alloc),
            left: Left::new(alloc),
        }
    }

    /// Takes a set of a message through all intermediates, in place of what was left of the set before. What they are
    /// prepared to for another definition gives way to its own. Where memory is wanted it is told which intermediate wants it.
    pub fn take(
        &mut self,
        alloc: Global,
        stages: &[Stage],
        message: &DataMessage,
        set: &DataSet,
    ) -> Result<(), usize>
        requires some { 0 < length stages.now }
        requires ready { AreReady stages.now self.old }
        requires sound { IsSoundSet message.now.octets.value set.now }
        ensures ready { AreReady stages.now self.new }
        ensures ok { OnOk result (AreLeftIn stages.now set.now.def.value message.now.octets.value set.now.places.items self.new.left) }
        ensures err { IfErr result (λ k. k < length stages.now) }
    {
        let DataMessage {
            session,
            domain,
            ..
        } = *message;
        let octets = message.octets.as_slice();
        let found = self.prepared.find(session, domain, set.template, &set.def);
        if let Some(prepared) = found {
            return self
                .left
                .take(stages, prepared, &set.def, octets, &set.places);
        }
        let prepared = prepare_stages(alloc, stages, &set.def)?;
        self.left
            .take(stages, &prepared, &set.def, octets, &set.places)?;
        let kept = self
            .prepared
            .keep(session, domain, set.template, &set.def, prepared);
        match kept {
            Ok(()) => Ok(()),
            Err(_) => Err(0),
        }
    }

    /// What is left of the set that was taken last.
    pub fn left(&self) -> &Left
        ensures { result.now ≡ self.now.left }
    {
        &self.left
    }

    /// Lets go what is kept of a session.
    pub fn close(&mut self, session: SessionKey)
        ensures ready { (works : List StageWork) → AreReady works self.old → AreReady works self.new }
        ensures forgets { Forgets (session_number session) self.old.prepared self.new.prepared }
    {
        self.prepared.close(session);
    }
}
