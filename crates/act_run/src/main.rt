//! Tries filters and anonymisers on records whose fate is known. `act_run FILE ...` reads tables of cases, plays each on the
//! call by the table and on the prepared one, prints those that come out otherwise, and at the end `N cases, M failed`. It
//! ends with 1 where M isn't 0. docs/TESTS.md has the form of a table.
#![tactic(auto)]

mod act;
mod case;
mod one_record;

use act::passes;
use case::Case;
use std::process::ExitCode;
use std::{env, fs};

/// How many cases there were, and how many failed.
#[derive(Clone, Copy)]
struct Tally {
    cases: u64,
    failed: u64,
}

impl Tally {
    fn add(&mut self, passed: bool) {
        self.cases = self.cases.saturating_add(1);
        if !passed {
            self.failed = self.failed.saturating_add(1);
        }
    }
}

fn main(rt: HostRuntime) -> anyhow::Result<ExitCode> {
    let mut tally = Tally {
        cases: 0,
        failed: 0,
    };
    for name in env::args(&rt)?.skip(1) {
        let table = fs::read_to_string(&rt, name.as_str())?;
        for line in table.lines() {
            if line.is_empty() || line.starts_with('#') {
                continue;
            }
            let passed = match Case::read(rt.alloc(), line) {
                Some(case) => passes(rt.alloc(), &case)?,
                None => false,
            };
            tally.add(passed);
            if !passed {
                println!(rt; "failed: {line}")?;
            }
        }
    }
    let Tally { cases, failed } = tally;
    println!(rt; "{cases} cases, {failed} failed")?;
    Ok(if failed == 0 {
        ExitCode::SUCCESS
    } else {
        ExitCode::FAILURE
    })
}
