// All outputs, behind the intermediates.
ghost use Rattle.pipeline_message.specs.Items.{IsSoundMessage};
ghost use Rattle.logged_outputs.specs.Behind.{AllPut, PutsItems};

use crate::output::Output;
use message_stages::Stages;
use message_texts::MessageTexts;
use pipeline_message::Msg;
use site_io::Sink;

/// The intermediates of a run, the index of the one that wanted memory, if one has, and its outputs. Nothing is written once
/// an intermediate wanted memory.
#[derive(Drop)]
pub struct Outputs<T, K> {
    pub stages: Stages,
    pub wanting: Option<usize>,
    pub outputs: Vec<Output<T, K>>,
}

/// Hands what is left of a message to each output.
fn put_to_all<T: MessageTexts, K: Sink>(message: &Msg, outputs: &mut Vec<Output<T, K>>)
    requires { IsSoundMessage message.now }
    ensures { AllPut T.stands K.held K.total K.faults message.now outputs.old.items outputs.new.items }
{
    for index in 0..outputs.len() {
        outputs[index].put(message);
    }
}

impl<T: MessageTexts, K: Sink> Outputs<T, K> {
    /// Takes a message through the intermediates, and hands what is left of it to each output.
    pub fn put(&mut self, message: &Msg)
        requires { IsSoundMessage message.now }
        ensures { PutsItems T.stands K.held K.total K.faults message.now self.old self.new }
    {
        if self.wanting.is_some() {
            return;
        }
        match self.stages.pass(message) {
            Ok(None) => put_to_all(message, &mut self.outputs),
            Ok(Some(left)) => put_to_all(&left, &mut self.outputs),
            Err(stage) => self.wanting = Some(stage),
        }
    }
}
