//! Calls the numbering of an IPFIX File with sets whose octets are known. `file_run FILE ...` reads tables of calls, makes each
//! with `put_message`, prints those that append something else or are refused otherwise than they should, and at the end
//! `N calls, M failed`. It ends with 1 where M isn't 0. docs/TESTS.md has the form of a table.
#![tactic(auto)]

mod call;
mod one_record;
mod sets;

use call::passes;
use file_output::Numbering;
use std::alloc::Global;
use std::process::ExitCode;
use std::{env, fs};

/// How many calls there were, and how many failed.
#[derive(Clone, Copy)]
struct Tally {
    calls: u64,
    failed: u64,
}

impl Tally {
    fn add(&mut self, passed: bool) {
        self.calls = self.calls.saturating_add(1);
        if !passed {
            self.failed = self.failed.saturating_add(1);
        }
    }
}

/// A numbering up to the number of a line `last N`, if it is one.
fn numbering_of(alloc: Global, line: &str) -> Option<Numbering> {
    let last = line.strip_prefix("last ")?.parse::<u16>().ok()?;
    Some(Numbering::new(alloc, last))
}

/// Makes the calls of a table.
fn play(rt: &HostRuntime, table: &str, tally: &mut Tally) -> anyhow::Result<()> {
    let mut numbering = Numbering::new(rt.alloc(), 65535);
    for line in table.lines() {
        if line.is_empty() || line.starts_with('#') {
            continue;
        }
        if let Some(next) = numbering_of(rt.alloc(), line) {
            numbering = next;
            continue;
        }
        let passed = passes(rt.alloc(), &mut numbering, line)?;
        tally.add(passed);
        if !passed {
            println!(rt; "failed: {line}")?;
        }
    }
    Ok(())
}

fn main(rt: HostRuntime) -> anyhow::Result<ExitCode> {
    let mut tally = Tally {
        calls: 0,
        failed: 0,
    };
    for name in env::args(&rt)?.skip(1) {
        let table = fs::read_to_string(&rt, name.as_str())?;
        play(&rt, table.as_str(), &mut tally)?;
    }
    let Tally { calls, failed } = tally;
    println!(rt; "{calls} calls, {failed} failed")?;
    Ok(if failed == 0 {
        ExitCode::SUCCESS
    } else {
        ExitCode::FAILURE
    })
}
