//! Works a parser hard: a session brings the same message again and again, and each becomes a message for the stages behind it,
//! which is let go at once. It prints what came of it. The first word is how many rounds of 1,000 messages are done; with the
//! word `times` behind it the least nanoseconds of a message are printed, too, and with the word of a kind of message in its
//! place only that kind is worked off (`bench/parsers.sh`).
#![tactic(auto)]

ghost use Rattle.std.specs.Prelude.{◌≡◌, IfOk};
ghost use Rattle.parser_lane.specs.Session.{HasOpen};

mod given;
mod work;

use col_base::{Octets, SessionKey, WantOfMemory};
use given::{Given, TEMPLATES};
use parser_lane::Parser;
use std::alloc::{AllocError, Global};
use std::env;
use std::rt::Clock;
use std::sync::Arc;
use std::time::Instant;
use work::{Tally, bring, opened};

/// How many messages a round has.
const MESSAGES: u32 = 1_000;

/// What came of some rounds, and the least nanoseconds of a message.
#[derive(Clone, Copy)]
struct Timed {
    tally: Tally,
    least: u128,
}

/// The session of all messages.
const KEY: SessionKey = SessionKey {
    input: 0,
    number: 0,
};

/// A parser that took the templates of the messages.
fn prepared(alloc: Global, key: SessionKey) -> Result<Parser, WantOfMemory>
    requires { key.number ≡ 0 }
    ensures { IfOk result (HasOpen key) }
{
    let mut parser = opened(alloc, key)?;
    let templates = Arc::new(alloc, Octets::from_slice(alloc, &TEMPLATES)?)?;
    bring(&mut parser, key, &templates, 1)?;
    Ok(parser)
}

/// So many rounds of a kind of message.
fn time_rounds(rt: &impl Clock, alloc: Global, given: Given, rounds: u32) -> anyhow::Result<Timed> {
    let Ok(mut parser) = prepared(alloc, KEY) else {
        return Err(AllocError.into());
    };
    let octets = Arc::new(alloc, given.octets(alloc)?)?;
    let mut timed = Timed {
        tally: Tally::NONE,
        least: u128::MAX,
    };
    for _ in 0..rounds {
        let start = Instant::now(rt)?;
        let Ok(tally) = bring(&mut parser, KEY, &octets, MESSAGES) else {
            return Err(AllocError.into());
        };
        let nanoseconds = start.elapsed(rt)?.as_nanos();
        timed.tally.add(tally);
        timed.least = timed.least.min(nanoseconds / u128::from(MESSAGES));
    }
    Ok(timed)
}

fn main(rt: HostRuntime) -> anyhow::Result<()> {
    let mut words = env::args(&rt)?.skip(1);
    let rounds = match words.next() {
        Some(word) => word.as_str().parse::<u32>()?,
        None => 1,
    };
    let kind = words.next();
    let only = kind.as_deref().and_then(Given::named);
    for given in Given::ALL {
        if only.is_some_and(|only| only != given) {
            continue;
        }
        let name = given.name();
        let Timed { tally, least } = time_rounds(&rt, rt.alloc(), given, rounds)?;
        println!(rt;
            "{name}: {} messages, {} sets, {} records",
            tally.messages, tally.sets, tally.records
        )?;
        if kind.as_deref() == Some("times") {
            println!(rt; "{name}: {least} ns a message")?;
        }
    }
    Ok(())
}
