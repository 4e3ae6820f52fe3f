//! Plays the inputs of scripts, as `script_text` reads them: each arrival is worked off by the input's parser, over a Site in
//! memory, becomes a message, and goes through the intermediates of the description.
//!
//! `item_run items FILE ...` prints what these leave of the messages, with what was counted; `item_run cases FILE ...` plays many scripts,
//! each beside lines that are to be printed of it, and tells those of which others came. docs/TESTS.md has all forms.
#![tactic(auto)]

mod asked;
mod counts;
mod items;
mod message;

use items::items_text;
use script_text::{Case, Fault, Player, Printer, Report, Script, play_files, print_files};
use std::alloc::Global;
use std::env;
use std::process::ExitCode;

/// The messages of a script's inputs are printed, or held to those that a case wants.
#[derive(Clone, Copy)]
struct Listing;

impl Printer for Listing {
    fn text_of(&self, alloc: Global, script: Script) -> Result<String, Fault> {
        items_text(alloc, script)
    }
}

impl Player for Listing {
    fn play(&self, alloc: Global, case: Case, report: &mut Report) -> Result<(), Fault> {
        if !case.wanted.is_empty() || case.given.is_empty() {
            return Err(Fault::Wrong("the case before is to want lines"));
        }
        let Case { script, given, .. } = case;
        let found = items_text(alloc, script)?;
        report.tell(given.differs(alloc, found.as_str())?)?;
        Ok(())
    }
}

/// Does what the words ask for, and answers whether all was well.
fn run(rt: &HostRuntime, words: &[String]) -> anyhow::Result<bool> {
    match words {
        [command, paths @ ..] if command.as_str() == "items" && !paths.is_empty() => {
            print_files(rt, &Listing, paths)
        }
        [command, paths @ ..] if command.as_str() == "cases" && !paths.is_empty() => {
            play_files(rt, &Listing, paths)
        }
        _ => {
            println!(rt; "usage: item_run items FILE ..., cases FILE ...")?;
            Ok(false)
        }
    }
}

fn main(rt: HostRuntime) -> anyhow::Result<ExitCode> {
    let mut words = Vec::new(rt.alloc());
    for word in env::args(&rt)?.skip(1) {
        words.push(word)?;
    }
    if run(&rt, &words)? {
        Ok(ExitCode::SUCCESS)
    } else {
        Ok(ExitCode::FAILURE)
    }
}
