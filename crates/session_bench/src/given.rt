// A whole input over a source in memory.
ghost use Rattle.std.specs.Prelude.{IsTrue};
ghost use Rattle.std.specs.List.{list_all};
ghost use Rattle.site_io.specs.Script.{fits};

use crate::{IDLE, PEERS, Tally, peer};
use arrival_spec::InputSpec;
use col_base::{Lifetimes, Octets, Text, Transport, WantOfMemory};
use config_spec::InputConf;
use input_lane::{Inlet, InletAnswer};
use site_io::{MemorySource, Scripted};
use std::alloc::{AllocError, Global};

/// A message without a set.
const MESSAGE: [u8; 16] = [0, 10, 0, 16, 0, 0, 0, 100, 0, 0, 0, 0, 0, 0, 0, 1];

/// An input, and how many answers come of a round.
#[derive(Drop)]
pub struct Asked {
    pub inlet: Inlet<MemorySource>,
    pub calls: u32,
}

/// The events of a source.
#[derive(Drop)]
struct Events {
    events: Vec<Scripted>,
    ghost lengths: { IsTrue (list_all fits events.items) },
}

impl Events {
    fn new(alloc: Global) -> Self {
        Events {
            events: Vec::new(alloc),
        }
    }

    fn push(&mut self, event: Scripted) -> Result<(), AllocError>
        requires { IsTrue (fits event) }
    {
        self.events.push(event)?;
        Ok(())
    }

    fn into_source(self, alloc: Global) -> MemorySource {
        let Events { events } = self;
        MemorySource::new(events, Vec::new(alloc))
    }
}

/// A datagram of each peer.
fn push_datagrams(alloc: Global, events: &mut Events) -> Result<(), AllocError> {
    for number in 0..PEERS {
        let message = Octets::from_slice(alloc, &MESSAGE)?;
        events.push(Scripted::Datagram(peer(number * 1009 % PEERS), message))?;
    }
    Ok(())
}

/// Such an input over UDP.
fn conf(alloc: Global) -> Result<InputConf, AllocError> {
    Ok(InputConf {
        spec: InputSpec {
            name: Text::from_str(alloc, "in")?,
            transport: Transport::Udp,
            place: Text::from_str(alloc, "[::1]:4739")?,
        },
        stop_after: 0,
        life: Lifetimes {
            template: 1800,
            options: 1800,
            late: 1800,
        },
        idle: IDLE,
    })
}

/// An input whose peers open, and then send a datagram a second each, for so many seconds.
pub fn datagrams_input(alloc: Global, seconds: u32) -> Result<Asked, WantOfMemory> {
    let mut events = Events::new(alloc);
    push_datagrams(alloc, &mut events)?;
    for second in 0..seconds {
        events.push(Scripted::Tick(second))?;
        push_datagrams(alloc, &mut events)?;
    }
    match Inlet::new(alloc, &conf(alloc)?, 0, events.into_source(alloc)) {
        Ok(inlet) => Ok(Asked {
            inlet,
            calls: 1 + PEERS,
        }),
        Err((fault, _)) => Err(fault),
    }
}

/// Asks an input so often. A good answer has an arrival.
pub fn ask(inlet: &mut Inlet<MemorySource>, calls: u32) -> Tally {
    let mut tally = Tally::NONE;
    for _ in 0..calls {
        tally.count(matches!(inlet.next(), InletAnswer::Got(_)));
    }
    tally
}
