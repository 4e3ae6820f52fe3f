//! Tries lines of JSON that are known. `lines_run TABLE FILE ...` reads an element table in TOML and files of cases, has the
//! lines of each case made, prints those that come out otherwise, and at the end `N cases, M failed`. It ends with 1 where M
//! isn't 0. docs/TESTS.md has the form of a case.
#![tactic(auto)]

mod case;
mod made;

use case::Case;
use col_base::Text;
use element_table::Elements;
use made::lines_of;
use std::alloc::AllocError;
use std::process::ExitCode;
use std::{env, fs};

/// How many cases there were, and how many failed.
#[derive(Clone, Copy)]
struct Tally {
    cases: u64,
    failed: u64,
}

impl Tally {
    fn add(&mut self, passed: bool) {
        self.cases = self.cases.saturating_add(1);
        if !passed {
            self.failed = self.failed.saturating_add(1);
        }
    }
}

/// The tables that cases name.
#[derive(Drop)]
struct Tables {
    builtin: Elements,
    table: Elements,
}

/// Tries a case that was read with its lines, and says whether they come out. None stands for a case that can't be read.
fn passes(
    rt: &HostRuntime,
    tables: &Tables,
    case: Option<Case<'_>>,
    lines: &[u8],
) -> Result<bool, AllocError> {
    let Some(case) = case else {
        return Ok(false);
    };
    let elements = if case.has_table {
        &tables.table
    } else {
        &tables.builtin
    };
    let Some(made) = lines_of(rt.alloc(), elements, &case)? else {
        return Ok(false);
    };
    Ok(made.as_slice() == lines)
}

/// Tries the cases of a file: a line `case`, and behind it a line `line` for each line of JSON.
fn try_file(
    rt: &HostRuntime,
    tables: &Tables,
    text: &str,
    tally: &mut Tally,
) -> anyhow::Result<()> {
    let mut head = None;
    let mut lines = Vec::new(rt.alloc());
    for line in text.lines() {
        if line.is_empty() || line.starts_with('#') {
            continue;
        }
        if let Some(rest) = line.strip_prefix("line ") {
            lines.extend_from_slice(rest.as_bytes())?;
            lines.push(b'\n')?;
            continue;
        }
        if let Some(before) = head {
            try_case(rt, tables, before, &lines, tally)?;
        }
        head = Some(line);
        lines.clear();
    }
    if let Some(last) = head {
        try_case(rt, tables, last, &lines, tally)?;
    }
    Ok(())
}

/// Tries a case, and prints it where it fails.
fn try_case(
    rt: &HostRuntime,
    tables: &Tables,
    line: &str,
    lines: &[u8],
    tally: &mut Tally,
) -> anyhow::Result<()> {
    let passed = passes(rt, tables, Case::read(rt.alloc(), line), lines)?;
    tally.add(passed);
    if !passed {
        println!(rt; "failed: {line}")?;
    }
    Ok(())
}

fn main(rt: HostRuntime) -> anyhow::Result<ExitCode> {
    let mut tally = Tally {
        cases: 0,
        failed: 0,
    };
    let mut tables = None;
    for name in env::args(&rt)?.skip(1) {
        let text = fs::read_to_string(&rt, name.as_str())?;
        match &tables {
            None => {
                let builtin = Elements::builtin(rt.alloc()).map_err(|_| AllocError)?;
                let mut table = builtin.clone()?;
                table
                    .add_table(rt.alloc(), text.as_bytes())
                    .map_err(|_| AllocError)?;
                tables = Some(Tables { builtin, table });
            }
            Some(tables) => try_file(&rt, tables, text.as_str(), &mut tally)?,
        }
    }
    let Tally { cases, failed } = tally;
    println!(rt; "{cases} cases, {failed} failed")?;
    Ok(if failed == 0 {
        ExitCode::SUCCESS
    } else {
        ExitCode::FAILURE
    })
}
