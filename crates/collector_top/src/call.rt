// The top call.
ghost use Rattle.std.specs.Prelude.{◌≡◌, map, string_bytes, Result};
ghost use Rattle.site_io.specs.declared.outside.OutsideFault.{OutsideFault};
ghost use Rattle.words_spec.specs.Commands.{command_of};
ghost use Rattle.call_spec.specs.Call.{Calls};
ghost use Rattle.call_spec.specs.Lines.{usage_text};
ghost use Rattle.run_lines.specs.Says.{Says};

use crate::check::check_run;
use crate::direct::direct_run;
use crate::words::{Command, command_of};
use collect_call::collect_run;
use generate_call::generate_run;
use run_lines::{Piece, say_piece};
use site_io::Site;
use std::alloc::Global;
use std::rt::Clock;
use std::sync::Wait;

/// Prints the usage line, and answers the status of words that are refused.
fn refuse<S: Site>(site: &mut S) -> u8
    ensures said { (said : Result (Unit {0}) OutsideFault) × Says (S.seen site.old) (S.seen site.new) usage_text said }
    ensures status { result ≡ 1 }
{
    let _said = say_piece(Piece::Usage, site);
    1
}

/// Does what the words ask for, and answers the program's status: 1 exactly where the words are refused. Only `collect` and
/// `generate` may wait.
pub fn collect_main<R: Wait + Clock, S: Site>(
    alloc: Global,
    rt: &R,
    words: &Vec<String>,
    site: &mut S,
) -> u8
    ensures { Calls S.Src.left S.Src.faults (command_of (map string_bytes words.now.items)) (S.seen site.old) (S.seen site.new) result }
{
    match command_of(words) {
        Command::Direct { place, out } => direct_run(alloc, place, out, site),
        Command::Check { file } => check_run(alloc, file, site),
        Command::Collect { file } => collect_run(alloc, rt, file, site),
        Command::Generate { number, count } => generate_run(alloc, rt, number, count, site),
        Command::Refused => refuse(site),
    }
}
