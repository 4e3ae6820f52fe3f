// The command `direct`: one file to JSON lines, on the calling thread.
ghost use Rattle.std.specs.Prelude.{◌≡◌, IfOk, IfErr};
ghost use Rattle.file_lines.specs.Run.{IsFresh};
ghost use Rattle.words_spec.specs.Commands.Command.{Direct};
ghost use Rattle.call_spec.specs.Call.{Calls};
ghost use Rattle.call_spec.specs.Files.{file_settings};
ghost use Rattle.input_lane.specs.Kept.{settings_of};
ghost use Rattle.collector_top.specs.Direct.{CameToRun, CameToRefusal};

use crate::report::{report_run, report_unopened};
use col_base::{Lifetimes, Text, Transport};
use config_spec::InputConf;
use file_lines::{Ended, Run};
use site_io::{InputSpec, OutsideFault, Site};
use std::alloc::{AllocError, Global};

/// Why a call is refused before its run.
#[derive(Clone, Copy, PartialEq, Eq)]
pub enum Unopened {
    /// The source could not be opened.
    NoSource,
    /// The sink could not be opened.
    NoSink,
    /// Memory was wanted.
    Memory,
}

/// The input of the command: a file, which is read to its end, with the defaults of a description.
fn input_conf(alloc: Global, place: &str) -> Result<InputConf, AllocError>
    ensures place { IfOk result (λ conf. conf.spec.place ≡ place.now) }
    ensures settings { IfOk result (λ conf. settings_of conf ≡ file_settings) }
{
    Ok(InputConf {
        spec: InputSpec {
            name: Text::from_str(alloc, "in")?,
            transport: Transport::File,
            place: Text::from_str(alloc, place)?,
        },
        stop_after: 0,
        life: Lifetimes {
            template: 1800,
            options: 1800,
            late: 1800,
        },
        idle: 600,
    })
}

/// Opens the source and then the sink, runs, and gives both back.
fn run_named<S: Site>(
    conf: &InputConf,
    out: &str,
    run: &mut Run,
    site: &mut S,
) -> Result<Ended, Unopened>
    requires file { settings_of conf.now ≡ file_settings }
    requires fresh { IsFresh run.old.sessions run.old.texts }
    ensures ran { IfOk result (CameToRun S.Src.left S.Src.faults conf.now.spec.place out.now (S.seen site.old) (S.seen site.new)) }
    ensures refused { IfErr result (CameToRefusal S.Src.left S.Src.faults conf.now.spec.place out.now (S.seen site.old) (S.seen site.new)) }
{
    let source = match site.open_source(&conf.spec) {
        Ok(source) => source,
        Err(OutsideFault::Failed) => return Err(Unopened::NoSource),
        Err(OutsideFault::NoMemory) => return Err(Unopened::Memory),
    };
    let mut sink = match site.open_sink(out) {
        Ok(sink) => sink,
        Err(OutsideFault::Failed) => {
            site.back_source(&conf.spec, source);
            return Err(Unopened::NoSink);
        }
        Err(OutsideFault::NoMemory) => {
            site.back_source(&conf.spec, source);
            return Err(Unopened::Memory);
        }
    };
    let (ended, source) = run.file(conf, source, &mut sink);
    site.back_sink(out, sink);
    site.back_source(&conf.spec, source);
    Ok(ended)
}

/// Takes the memory that is needed before anything is opened, and runs.
fn run<S: Site>(alloc: Global, place: &str, out: &str, site: &mut S) -> Result<Ended, Unopened>
    ensures ran { IfOk result (CameToRun S.Src.left S.Src.faults place.now out.now (S.seen site.old) (S.seen site.new)) }
    ensures refused { IfErr result (CameToRefusal S.Src.left S.Src.faults place.now out.now (S.seen site.old) (S.seen site.new)) }
{
    let Ok(conf) = input_conf(alloc, place) else {
        return Err(Unopened::Memory);
    };
    let Ok(mut run) = Run::new(alloc) else {
        return Err(Unopened::Memory);
    };
    run_named(&conf, out, &mut run, site)
}

/// Reads the file at `place` and writes a JSON line for each of its records to `out`, message by message.
///
/// The status is the greatest that came: 6 where memory was wanted, 5 where the source gave 2^48 answers without an
/// end, 4 where the sink or the printing failed, 3 where the source failed, and 0 where all is done.
pub fn direct_run<S: Site>(alloc: Global, place: &str, out: &str, site: &mut S) -> u8
    ensures { Calls S.Src.left S.Src.faults (Direct place.now out.now) (S.seen site.old) (S.seen site.new) result }
{
    match run(alloc, place, out, site) {
        Ok(ended) => report_run(alloc, ended, site),
        Err(refusal) => report_unopened(alloc, refusal, site),
    }
}
