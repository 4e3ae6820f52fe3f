//! The program: real files, and the top call.
#![tactic(auto)]

mod limited;
mod opening;
mod real_site;
mod real_source;
mod standard_streams;
#[cfg(test)]
mod test_folder;
#[cfg(test)]
mod tests;
mod used_files;

use col_base::WantOfMemory;
use collector_top::collect_main;
use real_site::RealSite;
use site_io::Site;
use standard_streams::hold_closed;
use std::env::{self, Env};
use std::io::ErrorKind;
use std::process::ExitCode;

/// The status where memory is wanted.
const NO_MEMORY: u8 = 6;

/// The words behind the program's name. Words that are no text stand as no words at all, which the top call refuses.
fn words_of<R: Env + AllocGlobal>(rt: &R) -> Result<Vec<String>, WantOfMemory> {
    let mut words = Vec::new(rt.alloc());
    match env::args(rt) {
        Ok(args) => {
            for word in args.skip(1) {
                words.push(word)?;
            }
        }
        Err(error) => {
            if error.kind() == ErrorKind::OutOfMemory {
                return Err(WantOfMemory);
            }
        }
    }
    Ok(words)
}

fn main(rt: HostRuntime) -> ExitCode {
    let _held = hold_closed(&rt);
    let alloc = rt.alloc();
    let mut site = RealSite::new(&rt, alloc);
    match words_of(&rt) {
        Ok(words) => ExitCode::from(collect_main(alloc, &rt, &words, &mut site)),
        Err(WantOfMemory) => {
            let _ = site.say(b"memory\n");
            ExitCode::from(NO_MEMORY)
        }
    }
}
