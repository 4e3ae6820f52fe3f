// A source of datagrams.
ghost use Rattle.std.specs.Prelude.{◌≡◌, ◌↔◌, ◌<◌, ◌≤◌, IsTrue, None, IfOk, IfSome, length};
ghost use Rattle.site_io.specs.Outside.{Counts};
ghost use Rattle.site_io.specs.Events.{HasLength, Takes};
ghost use Rattle.socket_io.specs.Answers.{IsDatagram, IsOfPeers, Tells};

use crate::Waiting;
use crate::address::{address_of, peer_key};
use crate::faults::counted;
use crate::options::widen_buffer;
use crate::ticks::Ticks;
use mio::net::UdpSocket;
use mio::{Events, Interest, Poll, Token};
use site_io::{OutsideFault, Source, SourceEvent};
use std::alloc::Global;
use std::io;
use std::io::ErrorKind;
use std::net::{Net, SocketAddr};
use std::time::Clock;

/// The most octets of one datagram.
const PIECE: usize = 65535;

/// How many octets the system is asked to keep until they are read.
const BUFFER: u32 = 8_388_608;

/// A source of the datagrams that come to an address. It never ends. Under load each datagram is one call of the system.
#[derive(Drop)]
pub struct UdpSource<R: Clock + Drop> {
    ticks: Ticks<R>,
    socket: UdpSocket,
    poll: Poll,
    events: Events,
    waiting: Waiting,
    faults: u64,
}

/// The next datagram, to the front of the room, where one is ready. Its fault is not counted.
fn receive(socket: &UdpSocket, room: &mut [u8]) -> Result<Option<SourceEvent>, OutsideFault>
    requires { length room.old ≤ 65535 }
    ensures lengths { IfOk result (λ found. IfSome found HasLength) }
    ensures datagram { IfOk result (λ found. IfSome found IsDatagram) }
{
    match socket.recv_from(room) {
        Ok((count, from)) => Ok(Some(SourceEvent::Datagram(peer_key(from), count))),
        Err(error) => match error.kind() {
            ErrorKind::WouldBlock | ErrorKind::Interrupted => Ok(None),
            _ => Err(OutsideFault::Failed),
        },
    }
}

impl<R: Clock + Drop> UdpSource<R> {
    /// A source at an address and port, with a large buffer where the system allows it. It takes memory. Failed is a text
    /// that is no address with a port, and one that can't be had.
    pub fn open<N: Net>(
        net: &N,
        clock: R,
        alloc: Global,
        place: &str,
        waiting: Waiting,
    ) -> Result<Self, OutsideFault>
        ensures fresh { IfOk result (λ source. source.faults ≡ 0) }
        ensures untold { IfOk result (λ source. source.ticks.last ≡ None) }
        ensures waiting { IfOk result (λ source. source.waiting ≡ waiting) }
    {
        let address = address_of(place).ok_or(OutsideFault::Failed)?;
        let events = Events::with_capacity(alloc, 1)?;
        let Ok(poll) = Poll::new(net) else {
            return Err(OutsideFault::Failed);
        };
        let Ok(mut socket) = UdpSocket::bind(net, address) else {
            return Err(OutsideFault::Failed);
        };
        widen_buffer(&socket, BUFFER);
        let registered = poll
            .registry()
            .register(&mut socket, Token(0), Interest::READABLE);
        if registered.is_err() {
            return Err(OutsideFault::Failed);
        }
        Ok(UdpSource {
            ticks: Ticks::new(clock),
            socket,
            poll,
            events,
            waiting,
            faults: 0,
        })
    }

    /// The address that the source has, where port 0 let the system choose a port.
    pub fn address(&self) -> io::Result<SocketAddr> {
        self.socket.local_addr()
    }

    /// Whether a call has failed.
    pub fn has_failed(&self) -> bool
        ensures { IsTrue result ↔ (0 < self.now.faults) }
    {
        self.faults > 0
    }

    /// Whether something came while the source waited for it. Its fault is not counted.
    fn waits(&mut self) -> Result<bool, OutsideFault>
        ensures ticks { self.new.ticks ≡ self.old.ticks }
        ensures faults { self.new.faults ≡ self.old.faults }
        ensures waiting { self.new.waiting ≡ self.old.waiting }
    {
        let longest = self.waiting.longest();
        if self.poll.poll(&mut self.events, Some(longest)).is_err() {
            return Err(OutsideFault::Failed);
        }
        Ok(!self.events.is_empty())
    }

    /// The next event. Its fault is not counted.
    fn ask(&mut self, room: &mut [u8]) -> Result<SourceEvent, OutsideFault>
        requires { 65535 ≤ length room.old }
        ensures lengths { IfOk result HasLength }
        ensures kinds { IfOk result IsOfPeers }
        ensures ticks { Tells self.old.ticks.last self.new.ticks.last result }
        ensures faults { self.new.faults ≡ self.old.faults }
        ensures waiting { self.new.waiting ≡ self.old.waiting }
    {
        if let Some(seconds) = self.ticks.next()? {
            return Ok(SourceEvent::Tick(seconds));
        }
        let most = room.len().min(PIECE);
        if let Some(event) = receive(&self.socket, &mut room[..most])? {
            return Ok(event);
        }
        if self.waiting == Waiting::Looks || !self.waits()? {
            return Ok(SourceEvent::NotYet);
        }
        match receive(&self.socket, &mut room[..most])? {
            Some(event) => Ok(event),
            None => Ok(SourceEvent::NotYet),
        }
    }
}

impl<R: Clock + Send + Drop> Source for UdpSource<R> {
    ghost left = { λ _. None };

    ghost faults = { λ s. s.faults };

    fn next(&mut self, room: &mut [u8]) -> Result<SourceEvent, OutsideFault>
        requires { 65535 ≤ length room.old }

        // what each source does
        ensures lengths { IfOk result HasLength }
        ensures takes { Takes None None result room.new }
        ensures counts { Counts self.old.faults self.new.faults result }

        // datagrams and seconds alone, and seconds first
        ensures kinds { IfOk result IsOfPeers }
        ensures ticks { Tells self.old.ticks.last self.new.ticks.last result }
        ensures waiting { self.new.waiting ≡ self.old.waiting }
    {
        match self.ask(room) {
            Ok(event) => Ok(event),
            Err(fault) => Err(counted(&mut self.faults, fault)),
        }
    }
}
