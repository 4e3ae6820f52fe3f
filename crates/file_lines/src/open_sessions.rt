// The sessions of a file that are open.
ghost use Rattle.std.specs.Prelude.{[], OnOk, OnErr};
ghost use Rattle.col_base.specs.declared.base.Transport.{Transport};
ghost use Rattle.arrival_spec.specs.Arrival.Arrival.{SessionOpen, Raw, SessionClose};
ghost use Rattle.file_lines.specs.declared.texts.Texts.{Texts};
ghost use Rattle.file_lines.specs.Texts.{KeepsFault};
ghost use Rattle.file_lines.specs.Sessions.{StandsFor, Works};

use crate::form::Forms;
use crate::session::take_octets;
use crate::texts::Texts;
use col_base::{SessionKey, WantOfMemory};
use file_templates::Domains;
use indexmap::IndexMap;
use std::alloc::{AllocError, AllocFailed, Global};

/// What is kept of a session: the templates of its domains, and the prepared lines of their records.
#[derive(Drop)]
pub struct Session {
    domains: Domains,
    forms: Forms,
}

/// The sessions that are open. One is found by its key without a search.
#[derive(Drop)]
pub struct OpenSessions {
    alloc: Global,
    rows: IndexMap<SessionKey, Session>,
}

impl OpenSessions {
    /// None. It takes no memory.
    pub fn new(alloc: Global) -> Self
        ensures { StandsFor result [] }
    {
        OpenSessions {
            alloc,
            rows: IndexMap::new(alloc),
        }
    }

    /// A session opens.
    pub fn open(&mut self, key: SessionKey) -> Result<(), WantOfMemory>
        ensures { OnOk result ((transport : Transport) (texts : Texts) → Works (SessionOpen key transport) self.old self.new texts texts) }
    {
        let session = Session {
            domains: Domains::new(self.alloc),
            forms: Forms::new(self.alloc),
        };
        self.rows.insert(key, session)?;
        Ok(())
    }

    /// A session closes, and all that was kept of it goes.
    pub fn close(&mut self, key: SessionKey)
        ensures { (texts : Texts) → Works (SessionClose key) self.old self.new texts texts }
    {
        let _session = self.rows.swap_remove(&key);
    }

    /// Takes the octets of a message of a session that is open: the lines of its records are put.
    pub fn take(
        &mut self,
        key: SessionKey,
        octets: &[u8],
        texts: &mut Texts,
    ) -> Result<(), WantOfMemory>
        ensures ok { OnOk result (Works (Raw key octets.now) self.old self.new texts.old texts.new) }
        ensures err { OnErr result (KeepsFault texts.old.fault texts.new.fault) }
    {
        match self.rows.get_mut(&key) {
            Some(session) => take_octets(
                self.alloc,
                octets,
                &mut session.domains,
                &mut session.forms,
                texts,
            ),
            None => Ok(()),
        }
    }
}
