// A source of datagrams, and a peer that sends them.

use crate::wrong::{Wrong, ask};
use site_io::{OutsideFault, PeerKey, Source, SourceEvent};
use socket_io::{TcpSource, UdpSource, Waiting};
use std::net::{SocketAddr, UdpSocket};

/// How often a source is asked at most for a datagram.
const CALLS: u32 = 200;

/// A source, and a peer.
#[derive(Drop)]
pub struct Exchange {
    pub source: UdpSource<HostRuntime>,
    pub room: Vec<u8>,
    peer: UdpSocket,
}

impl Exchange {
    /// A source at a free port of an address, and a peer at another.
    pub fn new(rt: HostRuntime, place: &str, peer: &str, waiting: Waiting) -> Result<Self, Wrong> {
        let alloc = rt.alloc();
        let room = vec![in alloc; 0; 65535]?;
        let peer = UdpSocket::bind(&rt, peer)?;
        Ok(Exchange {
            source: UdpSource::open(&rt, rt, alloc, place, waiting)?,
            room,
            peer,
        })
    }

    /// The peer sends a datagram to the source's port at an address.
    pub fn send(&mut self, to: [u16; 8], octets: &[u8]) -> Result<(), Wrong> {
        let port = self.source.address()?.port();
        let to = if to == [0; 8] {
            SocketAddr::from(([127, 0, 0, 1], port))
        } else {
            SocketAddr::from((to, port))
        };
        if self.peer.send_to(octets, to)? == octets.len() {
            Ok(())
        } else {
            Err(Wrong::FarEnd)
        }
    }

    /// The next datagram: the address of its peer, and how many octets it has.
    fn next(&mut self) -> Result<(PeerKey, usize), Wrong> {
        for _ in 0..CALLS {
            match ask(&mut self.source, &mut self.room)? {
                SourceEvent::Datagram(peer, count) => return Ok((peer, count)),
                SourceEvent::Tick(_) | SourceEvent::NotYet => {}
                _ => return Err(Wrong::Event),
            }
        }
        Err(Wrong::Wanting)
    }

    /// Whether the next datagram has these octets, and comes from the peer, whose address is these two numbers.
    pub fn gets(&mut self, high: u64, low: u64, octets: &[u8]) -> Result<bool, Wrong> {
        let (key, count) = self.next()?;
        let port = self.peer.local_addr()?.port();
        let came = &self.room[..count.min(self.room.len())];
        Ok((key.high, key.low, key.port) == (high, low, port) && came == octets)
    }
}

/// Whether neither kind of source can be opened at a place.
pub fn is_refused(rt: HostRuntime, place: &str) -> bool {
    let udp = UdpSource::open(&rt, rt, rt.alloc(), place, Waiting::Waits);
    if !matches!(udp, Err(OutsideFault::Failed)) {
        return false;
    }
    let tcp = TcpSource::open(&rt, rt, rt.alloc(), place, Waiting::Waits);
    matches!(tcp, Err(OutsideFault::Failed))
}
