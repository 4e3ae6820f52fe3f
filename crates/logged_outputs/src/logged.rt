// The order log and the outputs of a run.
ghost use Rattle.std.specs.Prelude.{◌≡◌, IsSome};
ghost use Rattle.pipeline_message.specs.Items.{IsSoundMessage, item_of};
ghost use Rattle.logged_outputs.specs.Entries.{Takes, entries_of};
ghost use Rattle.logged_outputs.specs.Logged.{Took};
ghost use Rattle.logged_outputs.specs.Logs.{EntersLog, goes_on};

use crate::outputs::Outputs;
use message_texts::MessageTexts;
use order_log::OrderLog;
use pipeline_message::Msg;
use site_io::Sink;

/// Where the messages of a run go: its order log, if it has one, and behind the intermediates its outputs.
#[derive(Drop)]
pub struct LoggedOutputs<T, K> {
    pub log: Option<OrderLog<K>>,
    pub outputs: Outputs<T, K>,
}

/// Enters a message of an input in the log, if there is one that has not ended. Answers whether its texts are to be written.
fn enter<K: Sink>(log: &mut Option<OrderLog<K>>, input: u16) -> bool
    ensures enters { EntersLog K.held K.faults input log.old log.new }
    ensures goes_on { result ≡ goes_on log.new }
{
    match log {
        None => true,
        Some(log) => log.enter(input),
    }
}

impl<T: MessageTexts, K: Sink> LoggedOutputs<T, K> {
    /// Takes the message of an input, which stands for an item.
    pub fn take(&mut self, input: u16, message: &Msg)
        requires sound { IsSoundMessage message.now }
        requires item { IsSome (item_of message.now) }
        ensures { Takes (Took T.stands K.held K.total K.faults) (entries_of input message.now) self.old self.new }
    {
        let goes_on = enter(&mut self.log, input);
        if goes_on {
            self.outputs.put(message);
        }
    }
}
