//! Tries texts that are known. `text_run FILE ...` reads tables of cases, has the text of each made, prints those that come
//! out otherwise, and at the end `N cases, M failed`. It ends with 1 where M isn't 0. docs/TESTS.md has the form of a table.
#![tactic(auto)]

mod case;
mod listing;

use case::Case;
use col_base::Octets;
use element_table::Elements;
use std::alloc::AllocError;
use std::process::ExitCode;
use std::{env, fs};

/// How many cases there were, and how many failed.
#[derive(Clone, Copy)]
struct Tally {
    cases: u64,
    failed: u64,
}

impl Tally {
    fn add(&mut self, passed: bool) {
        self.cases = self.cases.saturating_add(1);
        if !passed {
            self.failed = self.failed.saturating_add(1);
        }
    }
}

/// Whether a line is a case, and its text comes out.
fn passes(rt: &HostRuntime, elements: &Elements, line: &str) -> Result<bool, AllocError> {
    let Some(case) = Case::read(rt.alloc(), line) else {
        return Ok(false);
    };
    let mut text = Octets::new(rt.alloc());
    case.put(rt.alloc(), elements, &mut text)
        .map_err(|_| AllocError)?;
    Ok(text.as_slice() == case.text().as_bytes())
}

fn main(rt: HostRuntime) -> anyhow::Result<ExitCode> {
    let elements = Elements::builtin(rt.alloc()).map_err(|_| AllocError)?;
    let mut tally = Tally {
        cases: 0,
        failed: 0,
    };
    for name in env::args(&rt)?.skip(1) {
        let table = fs::read_to_string(&rt, name.as_str())?;
        for line in table.lines() {
            if line.is_empty() || line.starts_with('#') {
                continue;
            }
            let passed = passes(&rt, &elements, line)?;
            tally.add(passed);
            if !passed {
                println!(rt; "failed: {line}")?;
            }
        }
    }
    let Tally { cases, failed } = tally;
    println!(rt; "{cases} cases, {failed} failed")?;
    Ok(if failed == 0 {
        ExitCode::SUCCESS
    } else {
        ExitCode::FAILURE
    })
}
