// A parser that works messages off.
ghost use Rattle.std.specs.Prelude.{◌≡◌, IfOk};
ghost use Rattle.parser_lane.specs.Session.{HasOpen};

use arrival_spec::InputSpec;
use col_base::{Lifetimes, Octets, SessionKey, Text, Transport, WantOfMemory};
use config_spec::InputConf;
use parser_lane::Parser;
use pipeline_message::Msg;
use session_table::Arrival;
use std::alloc::Global;
use std::sync::Arc;

/// How many messages there were, with their sets and records.
#[derive(Clone, Copy)]
pub struct Tally {
    pub messages: u64,
    pub sets: u64,
    pub records: u64,
}

impl Tally {
    pub const NONE: Tally = Tally {
        messages: 0,
        sets: 0,
        records: 0,
    };

    fn count(&mut self, msg: &Msg) {
        if let Msg::DataMsg(message) = msg {
            self.messages = self.messages.saturating_add(1);
            for set in message.sets.as_slice() {
                self.sets = self.sets.saturating_add(1);
                self.records = self.records.saturating_add(set.places.len() as u64);
            }
        }
    }

    pub fn add(&mut self, other: Tally) {
        self.messages = self.messages.saturating_add(other.messages);
        self.sets = self.sets.saturating_add(other.sets);
        self.records = self.records.saturating_add(other.records);
    }
}

/// An input over TCP.
fn conf(alloc: Global) -> Result<InputConf, WantOfMemory> {
    Ok(InputConf {
        spec: InputSpec {
            name: Text::from_str(alloc, "in")?,
            transport: Transport::Tcp,
            place: Text::from_str(alloc, "[::1]:4739")?,
        },
        stop_after: 0,
        life: Lifetimes {
            template: 1800,
            options: 1800,
            late: 1800,
        },
        idle: 600,
    })
}

/// A parser in whose input a session opened.
pub fn opened(alloc: Global, key: SessionKey) -> Result<Parser, WantOfMemory>
    requires { key.number ≡ 0 }
    ensures { IfOk result (HasOpen key) }
{
    let mut parser = Parser::new(alloc, &conf(alloc)?)?;
    parser.work(&Arrival::SessionOpen(key, Transport::Tcp))?;
    Ok(parser)
}

/// The session brings the same message so often.
pub fn bring(
    parser: &mut Parser,
    key: SessionKey,
    octets: &Arc<Octets>,
    times: u32,
) -> Result<Tally, WantOfMemory>
    requires { HasOpen key parser.old }
    ensures { IfOk result (λ _. HasOpen key parser.new) }
{
    let arrival = Arrival::Raw(key, octets.clone()?);
    let mut tally = Tally::NONE;
    for _ in 0..times {
        let msg = parser.work(&arrival)?;
        tally.count(&msg);
    }
    Ok(tally)
}
