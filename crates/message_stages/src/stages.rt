// The intermediates of a description, in turn.
ghost use Rattle.std.specs.Prelude.{◌≡◌, ◌<◌, List, length, unwrap_or, IfErr, IfOk};
ghost use Rattle.std.specs.List.{AllByRecursion};
ghost use Rattle.config_spec.specs.Form.{IsStage};
ghost use Rattle.pipeline_message.specs.Items.{IsSoundMessage};
ghost use Rattle.stage_chain.specs.Behind.{works_of};
ghost use Rattle.message_stages.specs.Behind.{IsBehind};

use crate::message::message_left;
use crate::prepare::stages_of;
use crate::rooms::Rooms;
use config_spec::StageConf;
use pipeline_message::{DataMessage, Msg};
use stage_chain::Stage;
use std::alloc::Global;
use std::marker::Model;

/// The intermediates of a description, in turn, as they change messages. Contracts see what they do.
#[derive(Drop)]
pub struct Stages {
    alloc: Global,
    stages: Vec<Stage>,
    rooms: Rooms,
}

impl Model for Stages {
    ghost use Rattle.std.specs.Prelude.{List};
    ghost use Rattle.config_spec.specs.declared.conf.StageWork.{StageWork};
    ghost use Rattle.message_stages.specs.Sets.{AreReady};

    ghost Value = { List StageWork };

    ghost view = { λ s. s.stages.items };

    ghost invariant = { λ s. AreReady s.stages.items s.rooms };
}

impl Stages {
    /// The intermediates of a description, with their tables prepared. Where memory is wanted it is told which of them wants
    /// it, counted from 0.
    pub fn new(alloc: Global, stages: &[StageConf]) -> Result<Stages, usize>
        requires { AllByRecursion IsStage stages.now }
        ensures ok { IfOk result (λ made. made ≡ works_of stages.now) }
        ensures err { IfErr result (λ k. k < length stages.now) }
    {
        let stages = stages_of(alloc, stages)?;
        Ok(Stages {
            alloc,
            stages,
            rooms: Rooms::new(alloc),
        })
    }

    /// Takes a message through all intermediates, and answers what is left of it: None where it is as it was, since there is
    /// no intermediate, or it has no records. A message of which no set is left goes on without sets. Where memory is wanted
    /// it is told which intermediate wants it, counted from 0; nothing else changes. Copies of records above 2^32 octets want
    /// more than there is.
    pub fn pass(&mut self, message: &Msg) -> Result<Option<Msg>, usize>
        requires { IsSoundMessage message.now }
        ensures same { self.new ≡ self.old }
        ensures ok { IfOk result (λ left. IsBehind self.old message.now (unwrap_or left message.now)) }
        ensures err { IfErr result (λ k. k < length self.old) }
    {
        match message {
            Msg::DataMsg(data) => {
                if self.stages.is_empty() || data.sets.is_empty() {
                    return Ok(None);
                }
                let left = message_left(self.alloc, &self.stages, &mut self.rooms, data)?;
                Ok(Some(left))
            }
            Msg::SessionMsg(note) => {
                if !note.opened {
                    self.rooms.close(note.key);
                }
                Ok(None)
            }
            Msg::Periodic {
                input: _,
                seconds: _,
            } => Ok(None),
            Msg::Terminate => Ok(None),
        }
    }
}
