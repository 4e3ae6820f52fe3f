// The command `generate`.
ghost use Rattle.std.specs.Prelude.{◌≡◌, ◌≤◌, IfOk};
ghost use Rattle.words_spec.specs.Commands.Command.{Generate};
ghost use Rattle.call_spec.specs.Call.{Calls};
ghost use Rattle.call_spec.specs.Load.{load_conf};
ghost use Rattle.generate_call.specs.Ran.{CameToLoad};

use crate::description::load_conf;
use crate::load::{Load, run_load};
use collect_call::make_ready;
use config_spec::Conf;
use described_texts::{Refusal, report_refusal};
use element_table::Elements;
use run_lines::report_load;
use site_io::Site;
use std::alloc::{AllocError, Global};
use std::rt::Clock;
use std::sync::Wait;

/// Prepares the run, with the built-in elements, and runs. It fails where memory is wanted before that.
fn run<R: Wait + Clock>(
    alloc: Global,
    rt: &R,
    conf: &Conf,
    number: u64,
    count: u32,
) -> Result<Load, AllocError>
    requires count { (1 ≤ count) × (count ≤ 1000000) }
    requires conf { conf.now ≡ load_conf }
    ensures { IfOk result (CameToLoad number count) }
{
    let Ok(elements) = Elements::builtin(alloc) else {
        return Err(AllocError);
    };
    let prepared = make_ready(alloc, conf, elements)?;
    run_load(alloc, rt, conf, prepared, number, count)
}

/// Runs so many generated messages, from 1 to 1,000,000, of a number that their draws begin with, through the description of
/// `generate`, into sinks that keep the number of octets alone; and prints what came of it: the lines of faults, the summary,
/// and how many octets each output has. It is the same at each run.
///
/// The status is 6 where memory was wanted, 5 where the output of IPFIX Files needs more Template IDs than there are, 4 where
/// printing failed, and else 0.
pub fn generate_run<R: Wait + Clock, S: Site>(
    alloc: Global,
    rt: &R,
    number: u64,
    count: u32,
    site: &mut S,
) -> u8
    requires { (1 ≤ count) × (count ≤ 1000000) }
    ensures { Calls S.Src.left S.Src.faults (Generate number count) (S.seen site.old) (S.seen site.new) result }
{
    let Ok(conf) = load_conf(alloc) else {
        return report_refusal(alloc, &Refusal::Memory, site);
    };
    match run(alloc, rt, &conf, number, count) {
        Ok(load) => report_load(alloc, &conf, &load.ended, load.lengths.as_slice(), site),
        Err(_) => report_refusal(alloc, &Refusal::Memory, site),
    }
}
