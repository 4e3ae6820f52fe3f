// The sessions that are open, and what came of the arrivals so far.
ghost use Rattle.std.specs.Prelude.{◌≡◌, IfOk, OnErr, IsSome};
ghost use Rattle.arrival_spec.specs.Order.{same_key};
ghost use Rattle.indexmap.specs.IndexMap.{get};
ghost use Rattle.ipfix_reader.specs.Walk.{IsSomeMessage};
ghost use Rattle.ipfix_reader.specs.Octets.{octets_of};
ghost use Rattle.parser_lane.specs.Parsers.{HasSession, Opens, Closes, SessionTakes, TakesRaw, Ticks, Works};

use crate::count::{counted, malformed};
use crate::data::{data, no_header, sets_of};
use col_base::{Lifetimes, Octets, SessionKey, Transport, WantOfMemory};
use indexmap::IndexMap;
use ipfix_reader::{Message, check};
use pipeline_message::{Msg, RunCounts, SessionNote};
use session_domains::{Domains, Fate};
use session_table::Arrival;
use std::alloc::{AllocError, AllocFailed, Global};
use std::sync::Arc;

/// The domains of each session that is open, and the counts.
#[derive(Drop)]
pub struct OpenSessions {
    pub alloc: Global,
    pub transport: Transport,
    pub life: Lifetimes,
    pub rows: IndexMap<SessionKey, Domains>,
    pub counts: RunCounts,
}

/// The session of a message takes it.
fn take_in_session(
    rows: &mut IndexMap<SessionKey, Domains>,
    alloc: Global,
    key: SessionKey,
    message: Message<'_>,
) -> Result<Fate, WantOfMemory>
    requires { IsSome (get same_key rows.old key) }
    ensures { IfOk result (SessionTakes key (octets_of message.entry) rows.old rows.new) }
{
    let domains = rows.get_mut(&key).unwrap();
    domains.take(alloc, message)
}

impl OpenSessions {
    /// A session opens.
    fn open(&mut self, key: SessionKey, transport: Transport) -> Result<Msg, WantOfMemory>
        ensures ok { IfOk result (Opens key transport self.old self.new) }
        ensures err { OnErr result (self.new.counts ≡ self.old.counts) }
    {
        let domains = Domains::new(self.alloc, self.transport, self.life);
        self.rows.insert(key, domains)?;
        Ok(Msg::SessionMsg(SessionNote {
            key,
            transport,
            opened: true,
        }))
    }

    /// A session closes, and all that was kept of it goes.
    fn close(&mut self, key: SessionKey) -> Msg
        ensures { Closes key self.old self.new result }
    {
        let _domains = self.rows.swap_remove(&key);
        Msg::SessionMsg(SessionNote {
            key,
            transport: self.transport,
            opened: false,
        })
    }

    /// Takes a message that is well formed.
    fn take_message(
        &mut self,
        key: SessionKey,
        octets: &Arc<Octets>,
        message: Message<'_>,
    ) -> Result<Msg, WantOfMemory>
        requires session { IsSome (get same_key self.old.rows key) }
        requires of { octets_of message ≡ octets.now.value }
        requires whole { IsSomeMessage (octets_of message) }
        ensures ok { IfOk result (TakesRaw key octets.now.value self.old self.new) }
        ensures err { OnErr result (self.new.counts ≡ self.old.counts) }
    {
        let header = message.header();
        let fate = take_in_session(&mut self.rows, self.alloc, key, message)?;
        let counts = counted(self.counts, &fate);
        let msg = data(self.alloc, key, header, octets, sets_of(self.alloc, fate))?;
        self.counts = counts;
        Ok(msg)
    }

    /// Takes the octets of a message.
    fn take(&mut self, key: SessionKey, octets: &Arc<Octets>) -> Result<Msg, WantOfMemory>
        requires { IsSome (get same_key self.old.rows key) }
        ensures ok { IfOk result (TakesRaw key octets.now.value self.old self.new) }
        ensures err { OnErr result (self.new.counts ≡ self.old.counts) }
    {
        match check(octets.as_slice()) {
            Ok(message) => self.take_message(key, octets, message),
            Err(_) => {
                let msg = data(self.alloc, key, no_header(), octets, Vec::new(self.alloc))?;
                self.counts = malformed(self.counts);
                Ok(msg)
            }
        }
    }

    /// Seconds passed.
    fn tick(&self, input: u16, seconds: u32) -> Msg
        ensures { Ticks input seconds self.now result }
    {
        Msg::Periodic { input, seconds }
    }

    /// Works one arrival off.
    pub fn work(&mut self, arrival: &Arrival) -> Result<Msg, WantOfMemory>
        requires { HasSession arrival.now self.old }
        ensures ok { IfOk result (Works arrival.now self.old self.new) }
        ensures err { OnErr result (self.new.counts ≡ self.old.counts) }
    {
        match arrival {
            Arrival::SessionOpen(key, transport) => self.open(*key, *transport),
            Arrival::Raw(key, octets) => self.take(*key, octets),
            Arrival::SessionClose(key) => Ok(self.close(*key)),
            Arrival::Periodic(input, seconds) => Ok(self.tick(*input, *seconds)),
            Arrival::End => Ok(Msg::Terminate),
        }
    }
}
