// The command `collect`.
ghost use Rattle.std.specs.Prelude.{◌≡◌, ℕ, List, Ok};
ghost use Rattle.text_spec.specs.declared.element.Element.{Element};
ghost use Rattle.config_spec.specs.Description.{description};
ghost use Rattle.words_spec.specs.Commands.Command.{Collect};
ghost use Rattle.call_spec.specs.Call.{Calls, CallsOf};
ghost use Rattle.collect_call.specs.Runs.{IsPrepared, RunsOf};

use crate::prepare::{Prepared, make_ready};
use crate::report::report_unopened;
use config_spec::Conf;
use described_run::run_described;
use described_texts::{Description, read_description, report_refusal};
use run_lines::report_run;
use site_io::Site;
use site_openings::Unopened;
use std::alloc::Global;
use std::rt::Clock;
use std::sync::Wait;

/// Runs a description that is prepared, tells what came of it, and answers the status.
fn run_prepared<R: Wait + Clock, S: Site>(
    alloc: Global,
    rt: &R,
    conf: &Conf,
    prepared: Prepared,
    site: &mut S,
) -> u8
    requires described { (octets : List ℕ) × (description octets ≡ Ok conf.now) }
    requires prepared { (rows : List Element) × IsPrepared conf.now rows prepared }
    ensures { (rows : List Element) → IsPrepared conf.now rows prepared → CallsOf S.Src.left S.Src.faults (RunsOf conf.now rows) (S.seen site.old) (S.seen site.new) result }
{
    let Prepared {
        names,
        stages,
        texts,
    } = prepared;
    match run_described(alloc, rt, conf, names.as_slice(), stages, texts, site) {
        Ok(ended) => report_run(alloc, conf, &ended, site),
        Err(unopened) => report_unopened(alloc, conf, unopened, site),
    }
}

/// Runs a description that was read, tells what came of it, and answers the status.
fn run_read<R: Wait + Clock, S: Site>(alloc: Global, rt: &R, read: Description, site: &mut S) -> u8
    requires { (octets : List ℕ) × (description octets ≡ Ok read.conf) }
    ensures { CallsOf S.Src.left S.Src.faults (RunsOf read.conf read.elements) (S.seen site.old) (S.seen site.new) result }
{
    let Description { conf, elements } = read;
    match make_ready(alloc, &conf, elements) {
        Ok(prepared) => run_prepared(alloc, rt, &conf, prepared, site),
        Err(_) => report_unopened(alloc, &conf, Unopened::Memory, site),
    }
}

/// Reads the description of that name and the element files that it names, runs it, and prints what came of it: the first
/// fault of what was read, or why it isn't run, in one line; or the lines of the faults of its inputs, log, intermediates
/// and outputs, in this order, and then the summary.
///
/// The status is 2 where the description or an element file has a fault; 3 where a text or a source failed; 4 where a sink
/// failed, or the printing of a run's lines; 5 where an output of files needs a Template ID above its last one; 6 where
/// memory was wanted; and 0 where all is done. Of several the greatest is answered.
pub fn collect_run<R: Wait + Clock, S: Site>(alloc: Global, rt: &R, file: &str, site: &mut S) -> u8
    ensures { Calls S.Src.left S.Src.faults (Collect file.now) (S.seen site.old) (S.seen site.new) result }
{
    match read_description(alloc, file, site) {
        Ok(read) => run_read(alloc, rt, read, site),
        Err(refusal) => report_refusal(alloc, &refusal, site),
    }
}
