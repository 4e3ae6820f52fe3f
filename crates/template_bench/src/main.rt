//! Works managers of templates, and prints what came of it. The first word is how many rounds each kind of work is done;
//! with the word `times` behind it the least nanoseconds of a call are printed, too, and with the word `hold` only
//! definitions over UDP are taken, one a second of 16 IDs in turn, so that the memory that is held can be looked at
//! (`bench/templates.sh`).
#![tactic(auto)]

use col_base::{Kind, Lifetimes, Transport, WantOfMemory};
use std::alloc::{AllocError, Global};
use std::env;
use std::rt::Clock;
use std::sync::Arc;
use std::time::Instant;
use template_def::{Definition, well_formed};
use template_manager::{Manager, Need, Resolved, Taken, Touch};

/// Three fields of IANA: two addresses and a count.
const FLOW: [u8; 12] = [0, 8, 0, 4, 0, 12, 0, 4, 0, 1, 0, 4];

/// The first ID of a template.
const FIRST: u16 = 256;

/// What is done in a round.
#[derive(Clone, Copy)]
enum Work {
    /// Each template of a stream is resolved.
    Resolve,
    /// Export times arrive, each a second later, and nothing is old yet.
    Arrive,
    /// Each definition of a stream comes again as it was.
    Again,
    /// A snapshot of a stream is built.
    Snapshot,
}

impl Work {
    fn name(self) -> &'static str {
        match self {
            Work::Resolve => "resolve",
            Work::Arrive => "arrived",
            Work::Again => "take again",
            Work::Snapshot => "need",
        }
    }

    fn transport(self) -> Transport {
        match self {
            Work::Arrive => Transport::Udp,
            Work::Resolve | Work::Again | Work::Snapshot => Transport::Tcp,
        }
    }

    /// How many templates there are.
    fn templates(self) -> u16 {
        match self {
            Work::Arrive => 65000,
            Work::Resolve | Work::Again | Work::Snapshot => 1000,
        }
    }
}

/// How often something was called, and how often the call gave what it should.
#[derive(Clone, Copy)]
struct Tally {
    calls: u64,
    good: u64,
}

impl Tally {
    fn count(&mut self, good: bool) {
        self.calls = self.calls.saturating_add(1);
        if good {
            self.good = self.good.saturating_add(1);
        }
    }
}

/// Lifetimes of a second, where nothing comes late before so many seconds.
fn lasting(late: u32) -> Lifetimes {
    Lifetimes {
        template: 1,
        options: 1,
        late,
    }
}

/// The definition of that flow, if it is well formed.
fn flow(alloc: Global) -> Result<Option<Arc<Definition>>, WantOfMemory> {
    if !well_formed(0, &FLOW) {
        return Ok(None);
    }
    let definition = Definition::read(alloc, Kind::Template, 0, &FLOW)?;
    Ok(Some(Arc::new(alloc, definition)?))
}

/// Takes a definition, unless it is late.
fn define(
    manager: &mut Manager,
    export: u32,
    id: u16,
    definition: &Arc<Definition>,
) -> Result<Option<Taken>, WantOfMemory> {
    manager.arrived(export);
    if manager.late(export) {
        return Ok(None);
    }
    let touch = Touch::Define(id, definition.clone()?);
    Ok(Some(manager.take(touch, export)?))
}

/// A manager with all templates of a kind of work, each defined twice.
fn prepare(
    alloc: Global,
    work: Work,
    definition: &Arc<Definition>,
) -> Result<Manager, WantOfMemory> {
    let mut manager = Manager::new(alloc, work.transport(), lasting(1_000_000_000));
    for export in 100..102 {
        for id in FIRST..FIRST.saturating_add(work.templates()) {
            define(&mut manager, export, id, definition)?;
        }
    }
    Ok(manager)
}

fn resolve_all(manager: &Manager, templates: u16, tally: &mut Tally) {
    for id in FIRST..FIRST.saturating_add(templates) {
        if !manager.late(200) {
            let found = matches!(manager.resolve(200, id), Resolved::Template(_));
            tally.count(found);
        }
    }
}

fn take_all(
    manager: &mut Manager,
    templates: u16,
    definition: &Arc<Definition>,
    tally: &mut Tally,
) -> Result<(), WantOfMemory> {
    for id in FIRST..FIRST.saturating_add(templates) {
        let taken = define(manager, 200, id, definition)?;
        tally.count(taken == Some(Taken::Same));
    }
    Ok(())
}

/// Does so many rounds of work.
fn work_through(
    manager: &mut Manager,
    work: Work,
    definition: &Arc<Definition>,
    rounds: u32,
) -> Result<Tally, WantOfMemory> {
    let mut tally = Tally { calls: 0, good: 0 };
    for round in 0..rounds {
        match work {
            Work::Resolve => resolve_all(manager, work.templates(), &mut tally),
            Work::Again => take_all(manager, work.templates(), definition, &mut tally)?,
            Work::Arrive => {
                manager.arrived(round.saturating_add(200));
                tally.count(!manager.late(100));
            }
            Work::Snapshot => {
                let need = manager.need()?;
                tally.count(matches!(need, Need::Make(_)));
            }
        }
    }
    Ok(tally)
}

/// The least nanoseconds of a call, of five times so many rounds.
fn least_time(
    rt: &impl Clock,
    manager: &mut Manager,
    work: Work,
    definition: &Arc<Definition>,
    rounds: u32,
) -> anyhow::Result<u128> {
    let mut least = u128::MAX;
    for _ in 0..5 {
        let start = Instant::now(rt)?;
        let tally = work_through(manager, work, definition, rounds).map_err(|_| AllocError)?;
        let passed = start.elapsed(rt)?.as_nanos();
        least = least.min(passed / u128::from(tally.calls.max(1)));
    }
    Ok(least)
}

/// Defines 16 IDs in turn, one a second, and answers how many definitions were taken.
fn hold(alloc: Global, definition: &Arc<Definition>, rounds: u32) -> Result<u64, WantOfMemory> {
    let mut manager = Manager::new(alloc, Transport::Udp, lasting(1800));
    let mut taken: u64 = 0;
    for round in 0..rounds {
        let id = FIRST + (round % 16) as u16;
        if define(&mut manager, round, id, definition)?.is_some() {
            taken = taken.saturating_add(1);
        }
    }
    Ok(taken)
}

fn main(rt: HostRuntime) -> anyhow::Result<()> {
    let alloc = rt.alloc();
    let Some(definition) = flow(alloc).map_err(|_| AllocError)? else {
        return Ok(());
    };
    let mut words = env::args(&rt)?.skip(1);
    let rounds = match words.next() {
        Some(word) => word.as_str().parse::<u32>()?,
        None => 1,
    };
    let kind = words.next();
    let kind = kind.as_deref();
    if kind == Some("hold") {
        let taken = hold(alloc, &definition, rounds).map_err(|_| AllocError)?;
        println!(rt; "hold: {taken} taken")?;
        return Ok(());
    }
    for work in [Work::Resolve, Work::Arrive, Work::Again, Work::Snapshot] {
        let mut manager = prepare(alloc, work, &definition).map_err(|_| AllocError)?;
        let tally = work_through(&mut manager, work, &definition, rounds).map_err(|_| AllocError)?;
        println!(rt; "{}: {} of {} calls", work.name(), tally.good, tally.calls)?;
        if kind == Some("times") {
            let least = least_time(&rt, &mut manager, work, &definition, rounds)?;
            println!(rt; "{}: {least} ns a call", work.name())?;
        }
    }
    Ok(())
}
