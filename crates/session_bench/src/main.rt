//! Works the sessions of an input over UDP with as many peers as may be open, and prints what came of it. The first word is
//! how many rounds are done; with the word `times` behind it the least nanoseconds of a call are printed, too
//! (`bench/sessions.sh`).
#![tactic(auto)]

mod given;

use arrival_spec::PeerKey;
use col_base::WantOfMemory;
use given::{Asked, ask, datagrams_input};
use session_table::{Sessions, Where};
use std::alloc::{AllocError, Global};
use std::env;
use std::rt::Clock;
use std::time::Instant;

/// The most sessions of an input that are open at once.
const PEERS: u32 = 4096;

/// After how many silent seconds a session closes.
const IDLE: u32 = 600;

/// How often something was called, and how often the call gave what it should.
#[derive(Clone, Copy)]
pub struct Tally {
    calls: u64,
    good: u64,
}

impl Tally {
    const NONE: Tally = Tally { calls: 0, good: 0 };

    fn count(&mut self, good: bool) {
        self.calls = self.calls.saturating_add(1);
        if good {
            self.good = self.good.saturating_add(1);
        }
    }
}

/// The peer of a number.
fn peer(number: u32) -> PeerKey {
    PeerKey {
        high: 0x2001_0db8_0000_0000,
        low: u64::from(number),
        port: 4739,
    }
}

/// A datagram of each peer comes, in an order that isn't the one of their opening.
fn hear_all(sessions: &mut Sessions, seconds: u32) -> Result<Tally, WantOfMemory> {
    let mut tally = Tally::NONE;
    for number in 0..PEERS {
        let place = sessions.datagram(peer(number * 1009 % PEERS), seconds)?;
        tally.count(matches!(place, Where::Known(_)));
    }
    Ok(tally)
}

/// A second passes after another, up to the last before a silent peer closes.
fn tick_on(sessions: &mut Sessions, seconds: u32) -> Tally {
    let mut tally = Tally::NONE;
    for passed in 1..IDLE {
        tally.count(sessions.tick(seconds.saturating_add(passed)).is_none());
    }
    tally
}

/// The least nanoseconds of a call, by what all calls took.
fn least_of(least: u128, nanoseconds: u128, calls: u64) -> u128 {
    least.min(nanoseconds / u128::from(calls.max(1)))
}

/// What was called in some rounds, and the least nanoseconds of a call.
#[derive(Clone, Copy)]
struct Timed {
    name: &'static str,
    tally: Tally,
    least: u128,
}

impl Timed {
    fn new(name: &'static str) -> Self {
        Timed {
            name,
            tally: Tally::NONE,
            least: u128::MAX,
        }
    }

    fn add(&mut self, tally: Tally, nanoseconds: u128) {
        self.tally.calls = self.tally.calls.saturating_add(tally.calls);
        self.tally.good = self.tally.good.saturating_add(tally.good);
        self.least = least_of(self.least, nanoseconds, tally.calls);
    }
}

/// So many rounds of the table of sessions: a datagram of each peer, and then seconds in which none comes.
fn work_table(rt: &impl Clock, alloc: Global, rounds: u32) -> anyhow::Result<(Timed, Timed)> {
    let mut sessions = Sessions::new(alloc, 0, IDLE);
    let mut datagrams = Timed::new("datagram");
    let mut ticks = Timed::new("tick");
    hear_all(&mut sessions, 0).map_err(|_| AllocError)?;
    for round in 0..rounds {
        let seconds = round.saturating_mul(IDLE);
        let start = Instant::now(rt)?;
        let heard = hear_all(&mut sessions, seconds).map_err(|_| AllocError)?;
        datagrams.add(heard, start.elapsed(rt)?.as_nanos());
        let start = Instant::now(rt)?;
        let passed = tick_on(&mut sessions, seconds);
        ticks.add(passed, start.elapsed(rt)?.as_nanos());
    }
    Ok((datagrams, ticks))
}

/// So many rounds of a whole input over a source in memory, with a second between the datagrams of all peers.
fn work_input(rt: &impl Clock, alloc: Global, rounds: u32) -> anyhow::Result<Timed> {
    let mut answers = Timed::new("next");
    let Asked { mut inlet, calls } = datagrams_input(alloc, rounds).map_err(|_| AllocError)?;
    ask(&mut inlet, 2 * PEERS);
    for _ in 0..rounds {
        let start = Instant::now(rt)?;
        let asked = ask(&mut inlet, calls);
        answers.add(asked, start.elapsed(rt)?.as_nanos());
    }
    Ok(answers)
}

fn main(rt: HostRuntime) -> anyhow::Result<()> {
    let mut words = env::args(&rt)?.skip(1);
    let rounds = match words.next() {
        Some(word) => word.as_str().parse::<u32>()?,
        None => 1,
    };
    let kind = words.next();
    let (datagrams, ticks) = work_table(&rt, rt.alloc(), rounds)?;
    let answers = work_input(&rt, rt.alloc(), rounds)?;
    for timed in [datagrams, ticks, answers] {
        let Timed { name, tally, least } = timed;
        println!(rt; "{name}: {} of {} calls", tally.good, tally.calls)?;
        if kind.as_deref() == Some("times") {
            println!(rt; "{name}: {least} ns a call")?;
        }
    }
    Ok(())
}
