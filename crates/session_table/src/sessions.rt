// The table of open sessions.
ghost use Rattle.std.specs.Prelude.{◌≡◌, [], OnErr, IfOk, MatchBool, true, false};
ghost use Rattle.arrival_spec.specs.Sessions.{key_of};
ghost use Rattle.session_table.specs.Table.{ClosesNext, Connects, Disconnects, Hears, Ticks, is_full_table};

use crate::connections::Connections;
use crate::peers::Peers;
use crate::place::Where;
use arrival_spec::PeerKey;
use col_base::{SessionKey, WantOfMemory};
use std::alloc::Global;
use std::marker::Model;

/// The most sessions of an input that are open at once.
const MOST_OPEN: usize = 4096;

/// How many sessions an input can open: their numbers have 32 bits.
const NUMBERS: u64 = 1 << 32;

/// The open sessions of an input. A connection or a peer that is known is found without a search.
#[derive(Drop)]
pub struct Sessions {
    input: u16,
    idle: u32,
    opened: u64,
    conns: Connections,
    peers: Peers,
}

impl Model for Sessions {
    ghost use Rattle.std.specs.Prelude.{◌≤◌, ◌^◌};
    ghost use Rattle.session_table.specs.Table.{Table};

    ghost Value = { Table };

    ghost view = { λ s. record { input = s.input; idle = s.idle; opened = s.opened; conns = s.conns; peers = s.peers } };

    ghost invariant = { λ s. s.opened ≤ 2 ^ 32 };
}

impl Sessions {
    /// No session, for the input of this number, whose peers close after so many silent seconds. It takes no memory.
    pub fn new(alloc: Global, input: u16, idle: u32) -> Self
        ensures { result ≡ record { input = input; idle = idle; opened = 0; conns = []; peers = [] } }
    {
        Sessions {
            input,
            idle,
            opened: 0,
            conns: Connections::new(alloc),
            peers: Peers::new(alloc),
        }
    }

    /// The key of a session.
    fn key(&self, number: u32) -> SessionKey
        ensures { result ≡ key_of self.now.input number }
    {
        SessionKey {
            input: self.input,
            number,
        }
    }

    /// Whether no further session can open.
    fn is_full(&self) -> bool
        ensures { result ≡ is_full_table self.now }
    {
        self.conns.len() >= MOST_OPEN
            || self.peers.len() >= MOST_OPEN - self.conns.len()
            || self.opened >= NUMBERS
    }

    /// A connection opens: its session opens, unless it is there already, or no further one can open. Where memory is
    /// wanted nothing changes.
    pub fn connect(&mut self, conn: u32) -> Result<Where, WantOfMemory>
        ensures ok { IfOk result (Connects conn self.old self.new) }
        ensures err { OnErr result (self.new ≡ self.old) }
    {
        if let Some(session) = self.conns.session(conn) {
            return Ok(Where::Known(self.key(session)));
        }
        if self.is_full() {
            return Ok(Where::Refused);
        }
        let session = self.opened as u32;
        self.conns.open(conn, session)?;
        self.opened += 1;
        Ok(Where::New(self.key(session)))
    }

    /// A datagram of a peer came at this time, in seconds: the first one opens its session, unless no further one can
    /// open. Where memory is wanted nothing changes.
    pub fn datagram(&mut self, peer: PeerKey, now: u32) -> Result<Where, WantOfMemory>
        ensures ok { IfOk result (Hears peer now self.old self.new) }
        ensures err { OnErr result (self.new ≡ self.old) }
    {
        if let Some(session) = self.peers.hear(peer, now) {
            return Ok(Where::Known(self.key(session)));
        }
        if self.is_full() {
            return Ok(Where::Refused);
        }
        let session = self.opened as u32;
        self.peers.open(peer, session, now)?;
        self.opened += 1;
        Ok(Where::New(self.key(session)))
    }

    /// The session of a connection closes. None where it has none, and then nothing changes.
    pub fn disconnect(&mut self, conn: u32) -> Option<SessionKey>
        ensures { Disconnects conn self.old self.new result }
    {
        let session = self.conns.close(conn)?;
        Some(self.key(session))
    }

    /// At this time, in seconds, the session of the first peer closes that has been idle. None where no peer is, and then
    /// nothing changes. While no peer can be, that is found without a look at them.
    pub fn tick(&mut self, now: u32) -> Option<SessionKey>
        ensures { Ticks now self.old self.new result }
    {
        let session = self.peers.close_idle(self.idle, now)?;
        Some(self.key(session))
    }

    /// The oldest session closes. None where none is open.
    pub fn close_next(&mut self) -> Option<SessionKey>
        ensures { ClosesNext self.old self.new result }
    {
        if let Some(session) = self.conns.close_first() {
            return Some(self.key(session));
        }
        let session = self.peers.close_first()?;
        Some(self.key(session))
    }
}
