// A listener and the connections that it took.
ghost use Rattle.std.specs.Prelude.{◌≡◌, ◌≤◌, [], None, nat_eq, IfOk, IfSome, length};
ghost use Rattle.indexmap.specs.IndexMap.{get, spare};
ghost use Rattle.site_io.specs.Events.{HasLength};
ghost use Rattle.socket_io.specs.Answers.{IsOfStream};
ghost use Rattle.socket_io.specs.Connections.{Finds, OthersStay};

use crate::Waiting;
use crate::descriptors::are_left;
use crate::options::keep_alive;
use indexmap::IndexMap;
use mio::event::Event;
use mio::net::{TcpListener, TcpStream};
use mio::unix::SourceFd;
use mio::{Events, Interest, Poll, Token};
use site_io::{OutsideFault, SourceEvent};
use std::alloc::Global;
use std::io;
use std::io::{ErrorKind, Read};
use std::net::{Net, SocketAddr};
use std::os::fd::{AsRawFd, RawFd};

/// The most octets of one piece.
const PIECE: usize = 65535;

/// How many sockets one look reports.
const BATCH: usize = 256;

/// How many descriptors are left to others: a connection is accepted only where the system would give these too.
const LEFT: u32 = 8;

/// The token of the listener. Connections have their numbers.
const LISTENER: usize = usize::MAX;

/// Whether connections are accepted.
#[derive(Clone, Copy, Debug, PartialEq, Eq)]
enum Listening {
    Accepts,
    /// Descriptors were wanting, so the listener is put aside: what is reported of it is passed over.
    Aside,
    /// The listener was put aside, and is to be looked at again.
    Recalled,
}

/// A listener and its open connections, by number. Each call for events tells one. Faults are not counted here.
#[derive(Drop)]
pub struct TcpSockets {
    listener: TcpListener,
    listening: Listening,
    poll: Poll,
    /// What the last look reported, and how many of these reports were dealt with.
    events: Events,
    served: usize,
    connections: IndexMap<u32, TcpStream>,
    accepted: u32,
}

/// Has the next look report a socket again, if it is ready by then.
fn report_again(poll: &Poll, socket: RawFd, token: usize) -> Result<(), OutsideFault> {
    let answer = poll
        .registry()
        .reregister(&mut SourceFd(&socket), Token(token), Interest::READABLE);
    match answer {
        Ok(()) => Ok(()),
        Err(_) => Err(OutsideFault::Failed),
    }
}

impl TcpSockets {
    /// A listener at an address, with no connection. It takes memory.
    pub fn listen<N: Net>(net: &N, alloc: Global, address: SocketAddr) -> Result<Self, OutsideFault>
        ensures none { IfOk result (λ sockets. sockets.connections.entries ≡ []) }
        ensures accepted { IfOk result (λ sockets. sockets.accepted ≡ 0) }
    {
        let events = Events::with_capacity(alloc, BATCH)?;
        let Ok(poll) = Poll::new(net) else {
            return Err(OutsideFault::Failed);
        };
        let Ok(mut listener) = TcpListener::bind(net, address) else {
            return Err(OutsideFault::Failed);
        };
        let registered = poll
            .registry()
            .register(&mut listener, Token(LISTENER), Interest::READABLE);
        if registered.is_err() {
            return Err(OutsideFault::Failed);
        }
        Ok(TcpSockets {
            listener,
            listening: Listening::Accepts,
            poll,
            events,
            served: 0,
            connections: IndexMap::new(alloc),
            accepted: 0,
        })
    }

    /// The address of the listener.
    pub fn address(&self) -> io::Result<SocketAddr> {
        self.listener.local_addr()
    }

    /// A listener that was put aside is looked at again at the next call.
    pub fn recall(&mut self)
        ensures connections { self.new.connections ≡ self.old.connections }
        ensures accepted { self.new.accepted ≡ self.old.accepted }
    {
        if self.listening == Listening::Aside {
            self.listening = Listening::Recalled;
        }
    }

    /// The next event, where something is ready or becomes so while the source waits. Where memory is wanted nothing
    /// changes.
    pub fn find(
        &mut self,
        room: &mut [u8],
        waiting: Waiting,
    ) -> Result<Option<SourceEvent>, OutsideFault>
        requires { 65535 ≤ length room.old }
        ensures lengths { IfOk result (λ found. IfSome found HasLength) }
        ensures stream { IfOk result (λ found. IfSome found IsOfStream) }
        ensures finds { Finds self.old.connections self.new.connections self.old.accepted self.new.accepted result }
    {
        if self.listening == Listening::Recalled {
            report_again(&self.poll, self.listener.as_raw_fd(), LISTENER)?;
            self.listening = Listening::Accepts;
        }
        if let Some(event) = self.serve_reported(room)? {
            return Ok(Some(event));
        }
        self.served = 0;
        let looked = self.poll.poll(&mut self.events, Some(waiting.longest()));
        if looked.is_err() {
            return Err(OutsideFault::Failed);
        }
        self.serve_reported(room)
    }

    /// What the sockets that were reported have, each asked once, up to the first that has something.
    fn serve_reported(&mut self, room: &mut [u8]) -> Result<Option<SourceEvent>, OutsideFault>
        requires { 65535 ≤ length room.old }
        ensures lengths { IfOk result (λ found. IfSome found HasLength) }
        ensures stream { IfOk result (λ found. IfSome found IsOfStream) }
        ensures finds { Finds self.old.connections self.new.connections self.old.accepted self.new.accepted result }
    {
        for _ in 0..BATCH {
            // where memory is wanted no report is passed over
            self.connections.reserve(1)?;
            let Some(report) = self.next_report() else {
                return Ok(None);
            };
            if let Some(event) = self.serve(report, room)? {
                return Ok(Some(event));
            }
        }
        Ok(None)
    }

    /// The next report of the last look.
    fn next_report(&mut self) -> Option<Event>
        ensures connections { self.new.connections ≡ self.old.connections }
        ensures accepted { self.new.accepted ≡ self.old.accepted }
    {
        let report = *self.events.iter().nth(self.served)?;
        self.served = self.served.saturating_add(1);
        Some(report)
    }

    /// What the socket of a report has.
    fn serve(&mut self, report: Event, room: &mut [u8]) -> Result<Option<SourceEvent>, OutsideFault>
        requires room { 65535 ≤ length room.old }
        requires memory { 1 ≤ spare self.old.connections }
        ensures lengths { IfOk result (λ found. IfSome found HasLength) }
        ensures stream { IfOk result (λ found. IfSome found IsOfStream) }
        ensures finds { Finds self.old.connections self.new.connections self.old.accepted self.new.accepted result }
    {
        let Token(token) = report.token();
        if token == LISTENER {
            return self.accept();
        }
        match u32::try_from(token) {
            Ok(number) => self.read(number, report.is_read_closed(), room),
            Err(_) => Ok(None),
        }
    }

    /// The next connection, where one is ready and descriptors are left. The listener is then reported again, so that the
    /// others come between.
    fn accept(&mut self) -> Result<Option<SourceEvent>, OutsideFault>
        requires { 1 ≤ spare self.old.connections }
        ensures lengths { IfOk result (λ found. IfSome found HasLength) }
        ensures stream { IfOk result (λ found. IfSome found IsOfStream) }
        ensures finds { Finds self.old.connections self.new.connections self.old.accepted self.new.accepted result }
    {
        if self.listening != Listening::Accepts {
            return Ok(None);
        }
        if !are_left(LEFT + 1) {
            self.listening = Listening::Aside;
            return Ok(None);
        }
        match self.listener.accept() {
            Ok((stream, _)) => {
                report_again(&self.poll, self.listener.as_raw_fd(), LISTENER)?;
                self.open(stream)
            }
            Err(error) => match error.kind() {
                ErrorKind::WouldBlock => Ok(None),
                // a connection that is gone already is none, and others may wait behind it
                ErrorKind::Interrupted | ErrorKind::ConnectionAborted => {
                    report_again(&self.poll, self.listener.as_raw_fd(), LISTENER)?;
                    Ok(None)
                }
                _ => Err(OutsideFault::Failed),
            },
        }
    }

    /// A connection that was accepted gets its number.
    fn open(&mut self, mut stream: TcpStream) -> Result<Option<SourceEvent>, OutsideFault>
        requires { 1 ≤ spare self.old.connections }
        ensures lengths { IfOk result (λ found. IfSome found HasLength) }
        ensures stream { IfOk result (λ found. IfSome found IsOfStream) }
        ensures finds { Finds self.old.connections self.new.connections self.old.accepted self.new.accepted result }
    {
        let number = self.accepted;
        let Some(following) = number.checked_add(1) else {
            return Err(OutsideFault::Failed);
        };
        keep_alive(&stream);
        let token = Token(number as usize);
        let registered = self
            .poll
            .registry()
            .register(&mut stream, token, Interest::READABLE);
        if registered.is_err() {
            return Err(OutsideFault::Failed);
        }
        self.connections.insert(number, stream)?;
        self.accepted = following;
        Ok(Some(SourceEvent::Opened(number)))
    }

    /// A piece of a connection, or its end, where it is ready. A read that fails is an end too.
    fn read(
        &mut self,
        number: u32,
        is_closed: bool,
        room: &mut [u8],
    ) -> Result<Option<SourceEvent>, OutsideFault>
        requires { 65535 ≤ length room.old }
        ensures lengths { IfOk result (λ found. IfSome found HasLength) }
        ensures stream { IfOk result (λ found. IfSome found IsOfStream) }
        ensures finds { Finds self.old.connections self.new.connections self.old.accepted self.new.accepted result }
    {
        let most = room.len().min(PIECE);
        let Some(stream) = self.connections.get(&number) else {
            return Ok(None);
        };
        let socket = stream.as_raw_fd();
        let mut reader = stream;
        match reader.read(&mut room[..most]) {
            Ok(count) if count > 0 => {
                // A look reports a change alone. So what is behind a whole piece, and an end that was reported together
                // with octets, has to be reported again; behind a shorter piece nothing is left.
                if is_closed || count == most {
                    report_again(&self.poll, socket, number as usize)?;
                }
                Ok(Some(SourceEvent::Bytes(number, count)))
            }
            Err(error) if error.kind() == ErrorKind::WouldBlock => Ok(None),
            Err(error) if error.kind() == ErrorKind::Interrupted => {
                report_again(&self.poll, socket, number as usize)?;
                Ok(None)
            }
            _ => {
                self.close(number);
                Ok(Some(SourceEvent::Closed(number)))
            }
        }
    }

    /// Lets a connection go. Its descriptor is free then, so a listener that was put aside is recalled.
    fn close(&mut self, number: u32)
        ensures gone { get nat_eq self.new.connections number ≡ None }
        ensures others { OthersStay self.old.connections self.new.connections number }
        ensures accepted { self.new.accepted ≡ self.old.accepted }
    {
        drop(self.connections.swap_remove(&number));
        self.recall();
    }
}
