// A source of connections.
ghost use Rattle.std.specs.Prelude.{◌≡◌, ◌↔◌, ◌<◌, ◌≤◌, [], IsTrue, None, IfOk, length};
ghost use Rattle.site_io.specs.Outside.{Counts};
ghost use Rattle.site_io.specs.Events.{HasLength, Takes};
ghost use Rattle.socket_io.specs.Answers.{Tells};
ghost use Rattle.socket_io.specs.Connections.{Answers};

use crate::Waiting;
use crate::address::address_of;
use crate::faults::counted;
use crate::tcp_sockets::TcpSockets;
use crate::ticks::Ticks;
use site_io::{OutsideFault, Source, SourceEvent};
use std::alloc::Global;
use std::io;
use std::net::{Net, SocketAddr};
use std::time::Clock;

/// A source of the connections that are made to an address. It never ends. A connection is not accepted while the process
/// has hardly any descriptors left; it waits at the system until another closes.
#[derive(Drop)]
pub struct TcpSource<R: Clock + Drop> {
    ticks: Ticks<R>,
    sockets: TcpSockets,
    waiting: Waiting,
    faults: u64,
}

impl<R: Clock + Drop> TcpSource<R> {
    /// A source at an address and port, with no connection yet. It takes memory. Failed is a text that is no address with
    /// a port, and one that can't be had.
    pub fn open<N: Net>(
        net: &N,
        clock: R,
        alloc: Global,
        place: &str,
        waiting: Waiting,
    ) -> Result<Self, OutsideFault>
        ensures fresh { IfOk result (λ source. source.faults ≡ 0) }
        ensures untold { IfOk result (λ source. source.ticks.last ≡ None) }
        ensures none { IfOk result (λ source. source.sockets.connections.entries ≡ []) }
        ensures accepted { IfOk result (λ source. source.sockets.accepted ≡ 0) }
        ensures waiting { IfOk result (λ source. source.waiting ≡ waiting) }
    {
        let address = address_of(place).ok_or(OutsideFault::Failed)?;
        let sockets = TcpSockets::listen(net, alloc, address)?;
        Ok(TcpSource {
            ticks: Ticks::new(clock),
            sockets,
            waiting,
            faults: 0,
        })
    }

    /// The address that the source has, where port 0 let the system choose a port.
    pub fn address(&self) -> io::Result<SocketAddr> {
        self.sockets.address()
    }

    /// Whether a call has failed.
    pub fn has_failed(&self) -> bool
        ensures { IsTrue result ↔ (0 < self.now.faults) }
    {
        self.faults > 0
    }

    /// The next event. Its fault is not counted.
    fn ask(&mut self, room: &mut [u8]) -> Result<SourceEvent, OutsideFault>
        requires { 65535 ≤ length room.old }
        ensures lengths { IfOk result HasLength }
        ensures connections { Answers self.old.sockets.connections self.new.sockets.connections self.old.sockets.accepted self.new.sockets.accepted result }
        ensures ticks { Tells self.old.ticks.last self.new.ticks.last result }
        ensures faults { self.new.faults ≡ self.old.faults }
        ensures waiting { self.new.waiting ≡ self.old.waiting }
    {
        if let Some(seconds) = self.ticks.next()? {
            self.sockets.recall();
            return Ok(SourceEvent::Tick(seconds));
        }
        match self.sockets.find(room, self.waiting)? {
            Some(event) => Ok(event),
            None => Ok(SourceEvent::NotYet),
        }
    }
}

impl<R: Clock + Send + Drop> Source for TcpSource<R> {
    ghost left = { λ _. None };

    ghost faults = { λ s. s.faults };

    fn next(&mut self, room: &mut [u8]) -> Result<SourceEvent, OutsideFault>
        requires { 65535 ≤ length room.old }

        // what each source does
        ensures lengths { IfOk result HasLength }
        ensures takes { Takes None None result room.new }
        ensures counts { Counts self.old.faults self.new.faults result }

        // which connections are open, by their numbers, and seconds first
        ensures connections { Answers self.old.sockets.connections self.new.sockets.connections self.old.sockets.accepted self.new.sockets.accepted result }
        ensures ticks { Tells self.old.ticks.last self.new.ticks.last result }
        ensures waiting { self.new.waiting ≡ self.old.waiting }
    {
        match self.ask(room) {
            Ok(event) => Ok(event),
            Err(fault) => Err(counted(&mut self.faults, fault)),
        }
    }
}
