// All sources and sinks of a run.
ghost use Rattle.std.specs.Prelude.{◌≡◌, ◌≤◌, ℕ, List, IfOk, IfErr, length};
ghost use Rattle.site_io.specs.Seen.{Seen};
ghost use Rattle.call_spec.specs.Came.Refusal.{NoMemory};
ghost use Rattle.call_spec.specs.Leaves.{sink_names};
ghost use Rattle.call_spec.specs.Names.{times};
ghost use Rattle.call_spec.specs.Plan.{described_parties};
ghost use Rattle.site_openings.specs.All.{AreOut, IsRefused, refusal_of, sink_refusal, sink_stopped, source_stopped};
ghost use Rattle.site_openings.specs.Out.{AreDistinct};
ghost use Rattle.site_openings.specs.Places.{places_of, SourcesBack, SourcesOut};
ghost use Rattle.site_openings.specs.Sinks.{SinksBack, SinksOut};

use crate::places::{back_sources, open_sources};
use crate::sinks::{back_sinks, open_sinks};
use crate::stopped::Stopped;
use col_base::Text;
use config_spec::Conf;
use site_io::Site;
use std::alloc::Global;

/// What is out.
pub struct Opened<S, K> {
    /// In the order of the inputs.
    pub sources: Vec<S>,
    /// The order log's first, if there is one, and then those of the outputs.
    pub sinks: Vec<K>,
}

/// Why a run's sources and sinks could not be opened.
#[derive(Clone, Copy, Debug, PartialEq, Eq)]
pub enum Unopened {
    /// The source of the input of this index.
    Source(usize),
    /// The sink of the order log.
    Log,
    /// The sink of the output of this index.
    Output(usize),
    /// Memory was wanted.
    Memory,
}

/// Whose source could not be opened.
fn unopened_source(stopped: Stopped) -> Unopened
    ensures { refusal_of result ≡ source_stopped stopped }
{
    match stopped {
        Stopped::At(index) => Unopened::Source(index),
        Stopped::Memory => Unopened::Memory,
    }
}

/// Whose sink has this index: the log's is the first, if there is a log.
fn sink_at(log: &Option<Text>, index: usize) -> Unopened
    ensures { refusal_of result ≡ sink_refusal log.now index }
{
    match log {
        None => Unopened::Output(index),
        Some(_) => {
            if index == 0 {
                Unopened::Log
            } else {
                Unopened::Output(index - 1)
            }
        }
    }
}

/// Whose sink could not be opened.
fn unopened_sink(log: &Option<Text>, stopped: Stopped) -> Unopened
    ensures { refusal_of result ≡ sink_stopped log.now stopped }
{
    match stopped {
        Stopped::At(index) => sink_at(log, index),
        Stopped::Memory => Unopened::Memory,
    }
}

/// Opens the sources of all inputs, and then the sinks of these names, which are those of the log and the outputs. At the
/// first that can't be opened, all that are out are given back.
pub fn open_all<S: Site>(
    alloc: Global,
    conf: &Conf,
    names: &[Text],
    site: &mut S,
) -> Result<Opened<S::Src, S::Out>, Unopened>
    requires named { names.now ≡ sink_names (described_parties conf.now) }
    requires distinct { AreDistinct names.now }
    ensures ok { IfOk result (λ opened. (mid : Seen) × SourcesOut S.Src.left S.Src.faults (places_of conf.now.inputs) opened.sources.items (S.seen site.old) mid
        × SinksOut S.Out.held S.Out.faults names.now opened.sinks.items mid (S.seen site.new)) }
    ensures err { IfErr result (λ unopened. IsRefused S.Src.left S.Src.faults conf.now (refusal_of unopened) (S.seen site.old) (S.seen site.new)) }
{
    let sources = match open_sources(alloc, conf.inputs.as_slice(), site) {
        Ok(sources) => sources,
        Err(stopped) => return Err(unopened_source(stopped)),
    };
    match open_sinks(alloc, names, site) {
        Ok(sinks) => Ok(Opened { sources, sinks }),
        Err(stopped) => {
            back_sources(conf.inputs.as_slice(), sources, site);
            Err(unopened_sink(&conf.order_log, stopped))
        }
    }
}

/// Gives all back: the sinks, and then the sources. It takes no memory.
pub fn back_all<S: Site>(conf: &Conf, names: &[Text], opened: Opened<S::Src, S::Out>, site: &mut S)
    requires sources { length opened.sources.items ≡ length conf.now.inputs }
    requires sinks { length opened.sinks.items ≡ length names.now }
    requires places_out { (p : List ℕ) → times p (places_of conf.now.inputs) ≤ ((S.seen site.old).place p).out }
    requires sinks_out { (p : List ℕ) → times p names.now ≤ ((S.seen site.old).sink p).out }
    ensures { (mid : Seen) × SinksBack S.Out.held S.Out.faults names.now opened.sinks.items (S.seen site.old) mid
        × SourcesBack S.Src.left S.Src.faults (places_of conf.now.inputs) opened.sources.items mid (S.seen site.new) }
{
    let Opened { sources, sinks } = opened;
    back_sinks(names, sinks, site);
    back_sources(conf.inputs.as_slice(), sources, site);
}

/// Gives back what was opened for a run that never began, since memory was wanted. It takes no memory.
pub fn back_unused<S: Site>(
    conf: &Conf,
    names: &[Text],
    opened: Opened<S::Src, S::Out>,
    site: &mut S,
)
    requires named { names.now ≡ sink_names (described_parties conf.now) }
    requires out { (old : Seen) × AreOut S.Src.left S.Src.faults S.Out.held S.Out.faults conf.now opened.sources.items opened.sinks.items old (S.seen site.old) }
    ensures { (old : Seen) → AreOut S.Src.left S.Src.faults S.Out.held S.Out.faults conf.now opened.sources.items opened.sinks.items old (S.seen site.old)
        → IsRefused S.Src.left S.Src.faults conf.now NoMemory old (S.seen site.new) }
{
    back_all(conf, names, opened, site);
}
