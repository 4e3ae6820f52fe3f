//! Works prepared filters and anonymisers hard, and prints what came of it. The first word is how often each goes over its
//! records; with the word `times` behind it the least nanoseconds of a call are printed, too (`bench/acts.sh`).
#![tactic(auto)]

mod given;
mod work;

use given::{Task, body, definition, description};
use std::env;
use work::{least_time, prepare};

fn main(rt: HostRuntime) -> anyhow::Result<()> {
    let alloc = rt.alloc();
    let mut words = env::args(&rt)?.skip(1);
    let rounds = match words.next() {
        Some(word) => word.as_str().parse::<u32>()?,
        None => 1,
    };
    let with_times = words.next().as_deref() == Some("times");
    let Some(def) = definition(alloc)? else {
        return Ok(());
    };
    for task in [Task::Filter, Task::Rows, Task::Cut] {
        let text = description(alloc, task)?;
        let mut octets = body(alloc)?;
        let Some(prepared) = prepare(alloc, text.as_bytes(), &def)? else {
            println!(rt; "{}: no description", task.name())?;
            continue;
        };
        let tally = prepared.work(&def, &mut octets, rounds);
        println!(rt;
            "{}: {} calls, {} kept or changed",
            task.name(),
            tally.calls,
            tally.told
        )?;
        if with_times {
            let least = least_time(&rt, &prepared, &def, &mut octets, rounds)?;
            println!(rt; "{}: {least} ns a call", task.name())?;
        }
    }
    Ok(())
}
