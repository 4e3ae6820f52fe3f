//! Reads the descriptions and element tables that it is given, and prints what becomes of each: a try of those in
//! examples/. Behind the word `descriptions` stand descriptions, behind `values` those whose values are printed too, and
//! behind `elements` element tables, each read behind the built-in elements and the tables before it.
#![tactic(auto)]

mod values;

use element_table::Elements;
use std::alloc::{AllocError, Global};
use std::{env, fs};
use values::values_text;

/// What the files are that come next.
#[derive(Clone, Copy)]
enum Reads {
    Descriptions,
    Values,
    Elements,
}

/// `ok`, with the values behind it if they are wanted, or the first fault of the description.
fn description_line(alloc: Global, octets: &[u8], with_values: bool) -> Result<String, AllocError> {
    match startup_config::read(alloc, octets) {
        Ok(conf) => {
            let mut line = String::from_str(alloc, "ok\n")?;
            if with_values {
                line.push_str(values_text(alloc, &conf)?.as_str())?;
            }
            Ok(line)
        }
        Err(fault) => {
            let mut line = startup_config::fault_text(alloc, &fault)?;
            line.push_str("\n")?;
            Ok(line)
        }
    }
}

/// `ok`, or the first fault of the table.
fn table_line(alloc: Global, elements: &mut Elements, octets: &[u8]) -> Result<String, AllocError> {
    match elements.add_table(alloc, octets) {
        Ok(()) => String::from_str(alloc, "ok\n"),
        Err(fault) => {
            let mut line = element_table::fault_text(alloc, &fault)?;
            line.push_str("\n")?;
            Ok(line)
        }
    }
}

fn main(rt: HostRuntime) -> anyhow::Result<()> {
    let alloc = rt.alloc();
    let mut elements = Elements::builtin(alloc).map_err(|_| AllocError)?;
    let mut reads = Reads::Descriptions;
    for word in env::args(&rt)?.skip(1) {
        if word.as_str() == "descriptions" {
            reads = Reads::Descriptions;
            continue;
        }
        if word.as_str() == "values" {
            reads = Reads::Values;
            continue;
        }
        if word.as_str() == "elements" {
            reads = Reads::Elements;
            continue;
        }
        let octets = fs::read(&rt, word.as_str())?;
        let line = match reads {
            Reads::Descriptions => description_line(alloc, octets.as_slice(), false)?,
            Reads::Values => description_line(alloc, octets.as_slice(), true)?,
            Reads::Elements => table_line(alloc, &mut elements, octets.as_slice())?,
        };
        print!(rt; "{word}: {line}")?;
    }
    Ok(())
}
