// One domain of a session.
ghost use Rattle.std.specs.Prelude.{◌≡◌, ◌≤◌, ◌⊎◌, [], ℕ, List, Option, None, IfOk};
ghost use Rattle.wire_spec.specs.Content.{Message as Content, Says, Touch};
ghost use Rattle.arrival_spec.specs.Settings.{Settings};
ghost use Rattle.ipfix_reader.specs.Octets.{octets_of};
ghost use Rattle.ipfix_reader.specs.Walk.{IsSomeMessage};
ghost use Rattle.session_domains.specs.Domain.{DomainStands, DomainTakes, IsHeader};

use crate::fate::{Fate, TakenMessage};
use col_base::{Lifetimes, Transport, WantOfMemory};
use ipfix_reader::{Header, Message};
use message_decode::{decode, is_behind, lost};
use std::alloc::Global;
use template_manager::Manager;

/// The templates of a domain, and the sequence number that is due in it.
#[derive(Drop)]
pub struct Domain {
    pub manager: Manager,
    pub due: Option<u32>,
}

impl Domain {
    /// A domain of which no message came. It takes no memory.
    pub fn new(alloc: Global, transport: Transport, life: Lifetimes) -> Self
        ensures { (settings : Settings) → transport ≡ settings.transport → life ≡ settings.life → DomainStands settings [] 0 None result }
    {
        Domain {
            manager: Manager::new(alloc, transport, life),
            due: None,
        }
    }

    /// Takes a message of the domain, unless it is late.
    pub fn take(
        &mut self,
        alloc: Global,
        message: Message<'_>,
        header: Header,
    ) -> Result<Fate, WantOfMemory>
        requires { IsHeader (octets_of message) header }
        ensures { IfOk result (DomainTakes (octets_of message.entry) self.old self.new) }
    {
        self.manager.arrived(header.export);
        if self.manager.late(header.export) {
            return Ok(Fate::Late);
        }
        let lost = lost(header.seq, self.due);
        let behind = is_behind(header.seq, self.due);
        let found = decode(alloc, message, header, &mut self.manager)?;
        self.due = found.due;
        Ok(Fate::Taken(TakenMessage {
            sets: found.sets,
            counts: found.counts,
            lost,
            behind,
        }))
    }
}
