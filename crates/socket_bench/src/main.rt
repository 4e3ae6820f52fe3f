//! Counts what comes over a socket, by `udp PLACE SECONDS` or `tcp PLACE SECONDS`, and prints the counts. It ends once the
//! source told so many seconds. Without words it prints nothing. `bench/sockets.sh` times it, and `tools/try_sockets.sh`
//! tries it with few descriptors.
#![tactic(auto)]

ghost use Rattle.std.specs.Prelude.{◌≤◌, length};

use site_io::{OutsideFault, Source, SourceEvent};
use socket_io::{TcpSource, UdpSource, Waiting};
use std::time::CpuClock;
use std::{env, io};

/// What came.
#[derive(Clone, Copy, Debug)]
struct Tally {
    datagrams: u64,
    pieces: u64,
    octets: u64,
    opened: u64,
    closed: u64,
    ticks: u64,
    quiet: u64,
    failed: u64,
}

impl Tally {
    fn new() -> Self {
        Tally {
            datagrams: 0,
            pieces: 0,
            octets: 0,
            opened: 0,
            closed: 0,
            ticks: 0,
            quiet: 0,
            failed: 0,
        }
    }

    fn count(&mut self, answer: Result<SourceEvent, OutsideFault>) {
        let count = match answer {
            Ok(SourceEvent::Datagram(_, octets)) => {
                self.octets = self.octets.saturating_add(octets as u64);
                &mut self.datagrams
            }
            Ok(SourceEvent::Bytes(_, octets)) => {
                self.octets = self.octets.saturating_add(octets as u64);
                &mut self.pieces
            }
            Ok(SourceEvent::Opened(_)) => &mut self.opened,
            Ok(SourceEvent::Closed(_)) => &mut self.closed,
            Ok(SourceEvent::Tick(_)) => &mut self.ticks,
            Ok(SourceEvent::NotYet) => &mut self.quiet,
            Ok(SourceEvent::End) | Err(_) => &mut self.failed,
        };
        *count = count.saturating_add(1);
    }
}

/// Asks a source until it told so many seconds after its first, or failed.
fn ask<S: Source>(source: &mut S, room: &mut [u8], seconds: u64) -> Tally
    requires { 65535 ≤ length room.old }
{
    let mut tally = Tally::new();
    for _ in 0..u64::MAX {
        tally.count(source.next(room));
        if tally.ticks > seconds || tally.failed > 0 {
            break;
        }
    }
    tally
}

/// The tally of a source of that kind at a place; none where it can't be opened.
fn tally_of(rt: HostRuntime, kind: &str, place: &str, seconds: u64) -> io::Result<Option<Tally>> {
    let alloc = rt.alloc();
    let mut room = vec![in alloc; 0u8; 65535]?;
    if room.len() < 65535 {
        return Ok(None);
    }
    if kind == "udp" {
        return match UdpSource::open(&rt, rt, alloc, place, Waiting::Waits) {
            Ok(mut source) => Ok(Some(ask(&mut source, &mut room, seconds))),
            Err(_) => Ok(None),
        };
    }
    match TcpSource::open(&rt, rt, alloc, place, Waiting::Waits) {
        Ok(mut source) => Ok(Some(ask(&mut source, &mut room, seconds))),
        Err(_) => Ok(None),
    }
}

fn main(rt: HostRuntime) -> io::Result<()> {
    let mut words = Vec::new(rt.alloc());
    for word in env::args(&rt)?.skip(1) {
        words.push(word)?;
    }
    let [kind, place, seconds] = words.as_slice() else {
        return Ok(());
    };
    let seconds = seconds.parse::<u64>().unwrap_or(1);
    match tally_of(rt, kind.as_str(), place.as_str(), seconds)? {
        Some(tally) => {
            println!(rt; "{tally:?}")?;
            let spent = rt.process_cpu_time()?.as_micros();
            println!(rt; "processor microseconds {spent}")
        }
        None => println!(rt; "not opened"),
    }
}
