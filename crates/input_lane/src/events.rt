// What an event does.
ghost use Rattle.std.specs.Prelude.{◌≡◌, ◌≤◌, Some, OnOk, length, true};
ghost use Rattle.arrival_spec.specs.declared.event.Scripted.{Scripted};
ghost use Rattle.arrival_spec.specs.declared.event.Scripted.TheVariants.{Opened, Bytes, Datagram, Closed, Tick};
ghost use Rattle.arrival_spec.specs.Events.{is_event};
ghost use Rattle.arrival_spec.specs.Sessions.{is_datagrams};
ghost use Rattle.site_io.specs.Events.{event_in, HasLength};
ghost use Rattle.input_lane.specs.Inlets.{Takes};
ghost use Rattle.input_lane.specs.Steps.{Strays};

use crate::brought::Brought;
use crate::came::Came;
use crate::close::close_idle;
use crate::hand::{put, put_message};
use crate::state::State;
use crate::stream::Stream;
use arrival_spec::PeerKey;
use col_base::{Octets, Transport, WantOfMemory};
use session_table::Where;
use site_io::{SourceEvent, count_up};
use stream_cut::Cutter;

/// Whether what comes over a transport are datagrams.
fn has_datagrams(transport: Transport) -> bool
    ensures { result ≡ is_datagrams transport }
{
    match transport {
        Transport::Udp => true,
        _ => false,
    }
}

impl State {
    /// An event that brings nothing.
    fn stray(&mut self)
        ensures { Strays self.old self.new }
    {
        self.tally.stray = count_up(self.tally.stray);
    }

    /// A connection opens. One that can have no session stays dead until it closes.
    pub fn opened(&mut self, conn: u32) -> Result<(), WantOfMemory>
        ensures { OnOk result (Takes (Opened conn) self.old self.new) }
    {
        if has_datagrams(self.transport) {
            self.stray();
            return Ok(());
        }
        if self.links.has(conn) {
            self.stray();
            return Ok(());
        }
        let alloc = *self.hand.allocator();
        match self.sessions.connect(conn)? {
            Where::New(key) => {
                let stream = Stream::Open(key.number, Cutter::new(alloc));
                self.links.open(conn, stream)?;
                put(&mut self.hand, Came::SessionOpen(key, self.transport))?;
                self.tally.sessions = count_up(self.tally.sessions);
            }
            Where::Refused => {
                self.links.open(conn, Stream::Dead)?;
                self.tally.refused = count_up(self.tally.refused);
            }
            Where::Known(_) => self.stray(),
        }
        Ok(())
    }

    /// A connection closes, and its session with it, if it has one.
    pub fn closed(&mut self, conn: u32) -> Result<(), WantOfMemory>
        ensures { OnOk result (Takes (Closed conn) self.old self.new) }
    {
        if has_datagrams(self.transport) {
            self.stray();
            return Ok(());
        }
        match self.links.close(conn) {
            None => {
                self.stray();
                Ok(())
            }
            Some(stream) => {
                self.tally.torn = stream.torn(self.tally.torn);
                match self.sessions.disconnect(conn) {
                    Some(key) => {
                        put(&mut self.hand, Came::SessionClose(key))?;
                        Ok(())
                    }
                    None => Ok(()),
                }
            }
        }
    }

    /// Octets of a connection come. Those of one without a session are thrown away.
    pub fn bytes(&mut self, conn: u32, octets: &[u8]) -> Result<(), WantOfMemory>
        ensures { OnOk result (Takes (Bytes conn octets.now) self.old self.new) }
    {
        if has_datagrams(self.transport) {
            self.stray();
            return Ok(());
        }
        let alloc = *self.hand.allocator();
        match self
            .links
            .bring(alloc, conn, self.input, octets, &mut self.hand)?
        {
            None => {
                self.stray();
                Ok(())
            }
            Some(Brought::Dead) => Ok(()),
            Some(Brought::Alive) => Ok(()),
            Some(Brought::Broken) => {
                self.tally.broken = count_up(self.tally.broken);
                match self.sessions.disconnect(conn) {
                    Some(key) => {
                        put(&mut self.hand, Came::SessionClose(key))?;
                        Ok(())
                    }
                    None => Ok(()),
                }
            }
        }
    }

    /// A datagram is a message. The first one of a peer opens its session.
    pub fn datagram(&mut self, peer: PeerKey, octets: &[u8]) -> Result<(), WantOfMemory>
        ensures { OnOk result (Takes (Datagram peer octets.now) self.old self.new) }
    {
        if !has_datagrams(self.transport) {
            self.stray();
            return Ok(());
        }
        let alloc = *self.hand.allocator();
        match self.sessions.datagram(peer, self.seconds)? {
            Where::Known(key) => {
                let message = Octets::from_slice(alloc, octets)?;
                put_message(alloc, &mut self.hand, key, message)?;
            }
            Where::New(key) => {
                let message = Octets::from_slice(alloc, octets)?;
                put(&mut self.hand, Came::SessionOpen(key, self.transport))?;
                put_message(alloc, &mut self.hand, key, message)?;
                self.tally.sessions = count_up(self.tally.sessions);
            }
            Where::Refused => self.tally.refused = count_up(self.tally.refused),
        }
        Ok(())
    }

    /// Seconds passed: the sessions of idle peers close, and then the seconds are told.
    pub fn tick(&mut self, seconds: u32) -> Result<(), WantOfMemory>
        ensures { OnOk result (Takes (Tick seconds) self.old self.new) }
    {
        close_idle(&mut self.sessions, seconds, &mut self.hand)?;
        put(&mut self.hand, Came::Periodic(self.input, seconds))?;
        self.seconds = seconds;
        Ok(())
    }

    /// What an answer of the source, whose octets are the first of the room, does.
    pub fn take(&mut self, event: SourceEvent, room: &[u8]) -> Result<(), WantOfMemory>
        requires room { 65535 ≤ length room.now }
        requires lengths { HasLength event }
        ensures { OnOk result ((e : Scripted) → event_in room.now event ≡ Some e → is_event e ≡ true → Takes e self.old self.new) }
    {
        match event {
            SourceEvent::Opened(conn) => {
                self.opened(conn)?;
                Ok(())
            }
            SourceEvent::Closed(conn) => {
                self.closed(conn)?;
                Ok(())
            }
            SourceEvent::Datagram(peer, n) => {
                self.datagram(peer, &room[..n])?;
                Ok(())
            }
            SourceEvent::Tick(seconds) => {
                self.tick(seconds)?;
                Ok(())
            }
            SourceEvent::Bytes(conn, n) => {
                self.bytes(conn, &room[..n])?;
                Ok(())
            }
            SourceEvent::NotYet => Ok(()),
            SourceEvent::End => Ok(()),
        }
    }
}
