// A source of connections, and peers that play steps at its other end.

use crate::wrong::{Wrong, ask};
use libc::net::connect;
use site_io::{Source, SourceEvent};
use socket_io::{TcpSource, Waiting};
use std::alloc::Global;
use std::io::Write;
use std::net::TcpStream;
use std::os::fd::AsRawFd;

/// How often a source is asked at most for one step. Where nothing comes a call takes a tenth of a second.
const CALLS: u32 = 200;

/// What is done next. Peers and connections have numbers from 0.
#[derive(Clone, Copy)]
pub enum Step<'a> {
    /// A further peer connects.
    Connect,
    /// A peer sends octets.
    Send(usize, &'a [u8]),
    /// A peer closes its connection.
    Leave(usize),
    /// A peer breaks its connection off, so that a reset is sent.
    Reset(usize),
    /// The source is asked until a connection has so many octets.
    Octets(usize, usize),
    /// The source is asked until so many connections have closed.
    Closes(u32),
    /// The source is asked until a tick comes.
    Tick,
    /// The source is asked until so many connections have opened.
    Opens(usize),
}

/// What a source told: the streams by the numbers of their connections, and how many closed.
#[derive(Drop)]
pub struct Told {
    alloc: Global,
    streams: Vec<Vec<u8>>,
    closed: u32,
}

impl Told {
    fn new(alloc: Global) -> Self {
        Told {
            alloc,
            streams: Vec::new(alloc),
            closed: 0,
        }
    }

    /// Keeps what an event tells, with its octets at the front of the room.
    fn keep(&mut self, event: SourceEvent, room: &[u8]) -> Result<(), Wrong> {
        match event {
            SourceEvent::Opened(number) if number as usize == self.streams.len() => {
                self.streams.push(Vec::new(self.alloc))?;
            }
            SourceEvent::Bytes(number, count) => {
                let Some(stream) = self.streams.get_mut(number as usize) else {
                    return Err(Wrong::Event);
                };
                stream.extend_from_slice(&room[..count.min(room.len())])?;
            }
            SourceEvent::Closed(_) => self.closed = self.closed.saturating_add(1),
            SourceEvent::Tick(_) | SourceEvent::NotYet => {}
            _ => return Err(Wrong::Event),
        }
        Ok(())
    }

    /// Whether a connection gave exactly these octets.
    pub fn has(&self, number: usize, octets: &[u8]) -> bool {
        match self.streams.get(number) {
            Some(stream) => stream.as_slice() == octets,
            None => false,
        }
    }

    /// How many octets a connection gave.
    fn len_of(&self, number: usize) -> usize {
        match self.streams.get(number) {
            Some(stream) => stream.len(),
            None => 0,
        }
    }
}

/// A source, what it told, and the peers of its connections.
#[derive(Drop)]
pub struct Scene {
    rt: HostRuntime,
    pub source: TcpSource<HostRuntime>,
    pub told: Told,
    pub room: Vec<u8>,
    peers: Vec<Option<TcpStream>>,
}

impl Scene {
    /// A source at a free port of 127.0.0.1, without peers.
    pub fn new(rt: HostRuntime, waiting: Waiting) -> Result<Self, Wrong> {
        let alloc = rt.alloc();
        let room = vec![in alloc; 0; 65535]?;
        Ok(Scene {
            rt,
            source: TcpSource::open(&rt, rt, alloc, "127.0.0.1:0", waiting)?,
            told: Told::new(alloc),
            room,
            peers: Vec::new(alloc),
        })
    }

    /// Asks the source once.
    fn ask(&mut self) -> Result<SourceEvent, Wrong> {
        let event = ask(&mut self.source, &mut self.room)?;
        self.told.keep(event, &self.room)?;
        Ok(event)
    }

    /// Whether a step that asks the source has come to its end.
    fn is_done(&self, step: Step<'_>, last: SourceEvent) -> bool {
        match step {
            Step::Octets(number, count) => self.told.len_of(number) >= count,
            Step::Closes(count) => self.told.closed >= count,
            Step::Opens(count) => self.told.streams.len() >= count,
            _ => matches!(last, SourceEvent::Tick(_)),
        }
    }

    /// Asks the source until a step has come to its end.
    fn ask_until(&mut self, step: Step<'_>) -> Result<(), Wrong> {
        for _ in 0..CALLS {
            let last = self.ask()?;
            if self.is_done(step, last) {
                return Ok(());
            }
        }
        Err(Wrong::Wanting)
    }

    /// A further peer connects.
    fn connect(&mut self) -> Result<(), Wrong> {
        let peer = TcpStream::connect(&self.rt, self.source.address()?)?;
        self.peers.push(Some(peer))?;
        Ok(())
    }

    /// A peer sends octets.
    fn send(&mut self, peer: usize, octets: &[u8]) -> Result<(), Wrong> {
        match self.peers.get_mut(peer) {
            Some(Some(stream)) => Ok(stream.write_all(octets)?),
            _ => Err(Wrong::FarEnd),
        }
    }

    /// A peer closes its connection, or breaks it off.
    fn leave(&mut self, peer: usize, resets: bool) -> Result<(), Wrong> {
        let Some(Some(stream)) = self.peers.get_mut(peer).map(Option::take) else {
            return Err(Wrong::FarEnd);
        };
        // an address of no family ends a connection with a reset
        if resets && unsafe { connect(stream.as_raw_fd(), &[0; 128], 16) } != 0 {
            return Err(Wrong::FarEnd);
        }
        Ok(())
    }

    /// Plays one step.
    pub fn play(&mut self, step: Step<'_>) -> Result<(), Wrong> {
        match step {
            Step::Connect => self.connect(),
            Step::Send(peer, octets) => self.send(peer, octets),
            Step::Leave(peer) => self.leave(peer, false),
            Step::Reset(peer) => self.leave(peer, true),
            _ => self.ask_until(step),
        }
    }

    /// Plays steps in their order.
    pub fn play_all(&mut self, steps: &[Step<'_>]) -> Result<(), Wrong> {
        for step in steps {
            self.play(*step)?;
        }
        Ok(())
    }
}

/// Plays steps over a new source, which must not fail, and answers what it told.
pub fn told_of(rt: HostRuntime, steps: &[Step<'_>]) -> Result<Told, Wrong> {
    let mut scene = Scene::new(rt, Waiting::Waits)?;
    scene.play_all(steps)?;
    if scene.source.has_failed() {
        return Err(Wrong::Event);
    }
    Ok(scene.told)
}
