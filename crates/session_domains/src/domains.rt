// The domains of a session.
ghost use Rattle.std.specs.Prelude.{◌≡◌, [], ℕ, Option, None, IfOk};
ghost use Rattle.arrival_spec.specs.Settings.{Settings};
ghost use Rattle.ipfix_reader.specs.Octets.{octets_of};
ghost use Rattle.session_domains.specs.Session.{StandFor, Takes};

use crate::domain::Domain;
use crate::fate::Fate;
use col_base::{Lifetimes, Transport, WantOfMemory};
use indexmap::IndexMap;
use ipfix_reader::Message;
use std::alloc::{AllocError, AllocFailed, Global};

/// How many domains of a session are kept.
const MOST_DOMAINS: usize = 1024;

/// The first 1,024 domains of a session.
#[derive(Drop)]
pub struct Domains {
    transport: Transport,
    life: Lifetimes,
    rows: IndexMap<u32, Domain>,
}

impl Domains {
    /// No domain. It takes no memory.
    pub fn new(alloc: Global, transport: Transport, life: Lifetimes) -> Self
        ensures { (settings : Settings) → transport ≡ settings.transport → life ≡ settings.life → StandFor settings [] (λ domain. None) result }
    {
        Domains {
            transport,
            life,
            rows: IndexMap::new(alloc),
        }
    }

    /// Takes a message of the session. After a want of memory nothing is known of the domains.
    pub fn take(&mut self, alloc: Global, message: Message<'_>) -> Result<Fate, WantOfMemory>
        ensures { IfOk result (Takes (octets_of message.entry) self.old self.new) }
    {
        let header = message.header();
        if let Some(domain) = self.rows.get_mut(&header.domain) {
            return domain.take(alloc, message, header);
        }
        if self.rows.len() >= MOST_DOMAINS {
            return Ok(Fate::Crowded);
        }
        let mut domain = Domain::new(alloc, self.transport, self.life);
        let fate = domain.take(alloc, message, header)?;
        self.rows.insert(header.domain, domain)?;
        Ok(fate)
    }
}
