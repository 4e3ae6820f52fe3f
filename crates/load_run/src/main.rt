//! Asks the generator of load for its events. `load_run NUMBER COUNT [NUMBER COUNT ..]` prints of each pair what opens and
//! closes, the octets of a few messages and of the last one, and how many messages and octets there are, with the sum of the
//! octets and the sum of these sums. With `times` behind the pairs it prints the least nanoseconds of a message instead, where
//! nothing is done with the octets (`bench/load.sh`).
#![tactic(auto)]

ghost use Rattle.std.specs.Prelude.{◌≤◌, length};

mod tally;

use load_gen::LoadSource;
use site_io::{Source, SourceEvent};
use std::env;
use std::time::Instant;
use tally::Tally;

/// The messages whose octets are printed, beside the last one.
const SHOWN: [u32; 8] = [0, 1, 4, 999, 1000, 1003, 1004, 2000];

/// The most octets of an event.
const ROOM: usize = 65535;

/// How often all events are asked for to be timed.
const ROUNDS: u32 = 9;

/// What a pair of words asks for.
#[derive(Clone, Copy)]
struct Load {
    number: u64,
    count: u32,
}

impl Load {
    /// The load of two words, none where they aren't such numbers.
    fn read(number: &str, count: &str) -> Option<Load> {
        let number = number.parse::<u64>().ok()?;
        let count = count.parse::<u32>().ok()?;
        Some(Load { number, count })
    }

    /// Its source, none where the count isn't from 1 to 1,000,000.
    fn source(self) -> Option<LoadSource> {
        if self.count == 0 || self.count > 1_000_000 {
            return None;
        }
        Some(LoadSource::new(self.number, self.count))
    }

    /// Whether a message's octets are printed.
    fn shows(self, message: u32) -> bool {
        message == self.count.saturating_sub(1) || SHOWN.contains(&message)
    }
}

/// Prints the events of a load.
fn show(rt: &HostRuntime, load: Load, room: &mut [u8]) -> anyhow::Result<()>
    requires { 65535 ≤ length room.old }
{
    let Some(mut source) = load.source() else {
        return Ok(());
    };
    println!(rt; "load {} {}", load.number, load.count)?;
    let mut tally = Tally::NONE;
    for _ in 0..u64::MAX {
        match source.next(room) {
            Ok(SourceEvent::Bytes(_, size)) => {
                let message = &room[..size];
                if load.shows(tally.messages) {
                    println!(rt; "{} {}", tally.messages, hex::encode(rt.alloc(), message)?)?;
                }
                tally.add(message);
            }
            Ok(SourceEvent::End) | Err(_) => break,
            Ok(event) => println!(rt; "{event:?}")?,
        }
    }
    let Tally {
        messages,
        octets,
        sum,
        sums,
    } = tally;
    println!(rt; "{messages} messages of {octets} octets, sum {sum}, sum of sums {sums}")?;
    Ok(())
}

/// Asks for all events, and answers how many octets they have.
fn ask(source: &mut LoadSource, room: &mut [u8]) -> u64
    requires { 65535 ≤ length room.old }
{
    let mut octets: u64 = 0;
    for _ in 0..u64::MAX {
        match source.next(room) {
            Ok(SourceEvent::Bytes(_, size)) => octets = octets.saturating_add(size as u64),
            Ok(SourceEvent::End) | Err(_) => break,
            Ok(_) => {}
        }
    }
    octets
}

/// Prints how long the events of a load take.
fn time(rt: &HostRuntime, load: Load, room: &mut [u8]) -> anyhow::Result<()>
    requires { 65535 ≤ length room.old }
{
    let mut least = u128::MAX;
    let mut octets = 0;
    for _ in 0..ROUNDS {
        let Some(mut source) = load.source() else {
            return Ok(());
        };
        let start = Instant::now(rt)?;
        octets = ask(&mut source, room);
        least = least.min(start.elapsed(rt)?.as_nanos());
    }
    let each = least / u128::from(load.count.max(1));
    println!(rt;
        "{} messages of {octets} octets: {each} ns a message",
        load.count
    )?;
    Ok(())
}

/// Prints what pairs of words ask for, events or times.
fn print_all(rt: &HostRuntime, words: &[String], timed: bool, room: &mut [u8]) -> anyhow::Result<()>
    requires { 65535 ≤ length room.old }
{
    for pair in words.chunks_exact(2) {
        let Some(load) = Load::read(pair[0].as_str(), pair[1].as_str()) else {
            continue;
        };
        if timed {
            time(rt, load, room)?;
        } else {
            show(rt, load, room)?;
        }
    }
    Ok(())
}

fn main(rt: HostRuntime) -> anyhow::Result<()> {
    let mut room = vec![in rt.alloc(); 0u8; ROOM]?;
    let mut words = Vec::new(rt.alloc());
    for word in env::args(&rt)?.skip(1) {
        words.push(word)?;
    }
    let timed = words.last().is_some_and(|word| word.as_str() == "times");
    if room.len() >= ROOM {
        print_all(&rt, &words, timed, &mut room)?;
    }
    Ok(())
}
