//! Times lines of JSON. `json_bench KIND FIELDS PIECE FILE` prepares a definition (`entry` or `options`, fields as
//! `PEN/ID/LENGTH,..`), reads the file, maps it piece by piece (each of PIECE octets, a body of records) to lines in one room
//! that is kept, and prints how many records there are, and how many octets of lines with their sum (FNV-1a). With a word
//! more, TIMES, it maps the file so often again, and prints the picoseconds for a record, a field and an octet of text.
//! `bench/json.sh` runs it.
#![tactic(auto)]

ghost use Rattle.std.specs.Prelude.{◌<◌};

mod definition;
mod kept;

use definition::definition_of;
use element_table::Elements;
use json_output::Lines;
use kept::Kept;
use std::alloc::AllocError;
use std::process::ExitCode;
use std::time::Instant;
use std::{env, fs};

/// How many records there were, and the octets of their lines with their sum.
#[derive(Clone, Copy)]
struct Tally {
    records: u64,
    octets: u64,
    sum: u64,
}

/// Goes on with a sum of octets (FNV-1a).
fn sum_on(sum: u64, octets: &[u8]) -> u64 {
    let mut sum = sum;
    for octet in octets {
        sum = (sum ^ u64::from(*octet)).wrapping_mul(0x100_0000_01b3);
    }
    sum
}

/// How many line feeds there are.
fn count_lines(octets: &[u8]) -> u64 {
    let mut count: u64 = 0;
    for octet in octets {
        if *octet == b'\n' {
            count = count.saturating_add(1);
        }
    }
    count
}

/// Maps all pieces once, and looks at each line.
fn tally_of(kept: &Kept, body: &[u8], size: usize, lines: &mut Lines) -> Result<Tally, AllocError>
    requires { 0 < size }
{
    let mut tally = Tally {
        records: 0,
        octets: 0,
        sum: 0xcbf2_9ce4_8422_2325,
    };
    for piece in body.chunks(size) {
        lines.clear();
        kept.put_lines(piece, lines)?;
        let text = lines.as_slice();
        tally.records = tally.records.saturating_add(count_lines(text));
        tally.octets = tally.octets.saturating_add(text.len() as u64);
        tally.sum = sum_on(tally.sum, text);
    }
    Ok(tally)
}

/// Maps all pieces, so often, and answers how many octets of lines there were.
fn map_all(
    kept: &Kept,
    body: &[u8],
    size: usize,
    times: u32,
    lines: &mut Lines,
) -> Result<u64, AllocError>
    requires { 0 < size }
{
    let mut octets: u64 = 0;
    for _ in 0..times {
        for piece in body.chunks(size) {
            lines.clear();
            kept.put_lines(piece, lines)?;
            octets = octets.saturating_add(lines.as_slice().len() as u64);
        }
    }
    Ok(octets)
}

/// What the words ask for.
#[derive(Drop)]
struct Task {
    kept: Kept,
    fields: usize,
    piece: usize,
    body: Vec<u8>,
    times: u32,
}

/// The task of words, None where they ask for none.
fn task_of(rt: &HostRuntime, words: &[String]) -> anyhow::Result<Option<Task>> {
    let alloc = rt.alloc();
    if words.len() < 4 {
        return Ok(None);
    }
    let Some(def) = definition_of(alloc, words[0].as_str(), words[1].as_str())? else {
        return Ok(None);
    };
    let fields = def.fields().len();
    let elements = Elements::builtin(alloc).map_err(|_| AllocError)?;
    let times = if words.len() > 4 {
        words[4].as_str().parse::<u32>()?
    } else {
        0
    };
    Ok(Some(Task {
        kept: Kept::new(alloc, &elements, def)?,
        fields,
        piece: words[2].as_str().parse::<usize>()?,
        body: fs::read(rt, words[3].as_str())?,
        times,
    }))
}

/// A thousand times the quotient of two numbers.
fn thousandths(number: u64, count: u64) -> u64 {
    number.saturating_mul(1000) / count.max(1)
}

/// Maps the file as often as the task says, and prints what that takes.
fn print_times(
    rt: &HostRuntime,
    task: &Task,
    size: usize,
    records: u64,
    lines: &mut Lines,
) -> anyhow::Result<()>
    requires { 0 < size }
{
    let start = Instant::now(rt)?;
    let octets = map_all(&task.kept, &task.body, size, task.times, lines)?;
    let took = u64::try_from(start.elapsed(rt)?.as_nanos()).unwrap_or(u64::MAX);
    let records = records.saturating_mul(u64::from(task.times));
    let a_record = thousandths(took, records);
    let a_field = thousandths(took, records.saturating_mul(task.fields as u64));
    let an_octet = thousandths(took, octets);
    println!(rt; "{a_record} ps a record, {a_field} ps a field, {an_octet} ps an octet of text")?;
    Ok(())
}

fn main(rt: HostRuntime) -> anyhow::Result<ExitCode> {
    let mut words = Vec::new(rt.alloc());
    for word in env::args(&rt)?.skip(1) {
        words.push(word)?;
    }
    let Some(task) = task_of(&rt, &words)? else {
        println!(rt; "words: KIND FIELDS PIECE FILE [TIMES]")?;
        return Ok(ExitCode::FAILURE);
    };
    let size = task.piece.max(1);
    let mut lines = Lines::new(rt.alloc());
    let tally = tally_of(&task.kept, &task.body, size, &mut lines)?;
    println!(rt;
        "{} records, {} octets of lines, sum {}",
        tally.records, tally.octets, tally.sum
    )?;
    if task.times > 0 {
        print_times(&rt, &task, size, tally.records, &mut lines)?;
    }
    Ok(ExitCode::SUCCESS)
}
