//! Plays scripts, as `script_text` reads them: the call of a script is made over a Site in memory.
//!
//! `script_run FILE` and `script_run run FILE` print what one call left, and `script_run arrivals FILE ...` what the inputs of
//! a script's description give; `script_run cases FILE ...` plays many scripts, each beside what is to come of it, and tells
//! those of which something else came. docs/TESTS.md has all forms.
#![tactic(auto)]

mod arrivals;
mod case;
mod played;
mod wanted;

use case::Calls;
use script_text::{Fault, Printer, Script, play_files, print_files};
use std::alloc::Global;
use std::env;
use std::process::ExitCode;
use std::rt::Clock;
use std::sync::Wait;

/// Prints what the calls of scripts leave.
#[derive(Drop)]
struct Left<'a, R> {
    rt: &'a R,
}

impl<R: Wait + Clock> Printer for Left<'_, R> {
    fn text_of(&self, alloc: Global, script: Script) -> Result<String, Fault> {
        Ok(played::play(self.rt, alloc, script)?.printed(alloc)?)
    }
}

/// Prints what the inputs of scripts' descriptions give.
struct Given;

impl Printer for Given {
    fn text_of(&self, alloc: Global, script: Script) -> Result<String, Fault> {
        arrivals::arrivals_text(alloc, script)
    }
}

/// Does what the words ask for, and answers whether all was well. Calls are made with a runtime that waits.
fn run<R: Wait + Clock>(rt: &HostRuntime, waiting: &R, words: &[String]) -> anyhow::Result<bool> {
    match words {
        [_] => print_files(rt, &Left { rt: waiting }, words),
        [command, paths @ ..] if command.as_str() == "run" && paths.len() == 1 => {
            print_files(rt, &Left { rt: waiting }, paths)
        }
        [command, paths @ ..] if command.as_str() == "arrivals" && !paths.is_empty() => {
            print_files(rt, &Given, paths)
        }
        [command, paths @ ..] if command.as_str() == "cases" && !paths.is_empty() => {
            play_files(rt, &Calls { rt: waiting }, paths)
        }
        _ => {
            println!(rt; "usage: script_run [run] FILE, arrivals FILE ..., cases FILE ...")?;
            Ok(false)
        }
    }
}

fn main(rt: HostRuntime) -> anyhow::Result<ExitCode> {
    let mut words = Vec::new(rt.alloc());
    for word in env::args(&rt)?.skip(1) {
        words.push(word)?;
    }
    if run(&rt, &rt, &words)? {
        Ok(ExitCode::SUCCESS)
    } else {
        Ok(ExitCode::FAILURE)
    }
}
