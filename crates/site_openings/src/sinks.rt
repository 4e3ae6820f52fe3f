// The sinks of the order log and of all outputs: opened in order, and given back.
ghost use Rattle.std.specs.Prelude.{◌≡◌, ◌≤◌, ◌<◌, ℕ, List, IfOk, IfErr, length};
ghost use Rattle.site_io.specs.Seen.{ChangesSink, SinkComesBack};
ghost use Rattle.site_io.specs.Seen.{OpensSink as OpensOne};
ghost use Rattle.call_spec.specs.Names.{times};
ghost use Rattle.site_openings.specs.Out.{AreDistinct};
ghost use Rattle.site_openings.specs.Sinks.{OpensSink, SinksOut, SinksBack, SinksStopped};

use crate::stopped::Stopped;
use col_base::Text;
use site_io::{OutsideFault, Site};
use std::alloc::Global;

/// Opens the sink of that name.
fn open_named<S: Site>(name: &Text, site: &mut S) -> Result<S::Out, OutsideFault>
    ensures opened { OpensOne S.Out.held S.Out.total S.Out.faults ((S.seen site.old).sink name.now) ((S.seen site.new).sink name.now) result }
    ensures others { ChangesSink name.now (S.seen site.old) (S.seen site.new) }
{
    site.open_sink(name.as_str())
}

/// Gives back the sink of that name.
fn back_sink<S: Site>(name: &Text, sink: S::Out, site: &mut S)
    requires out { 0 < ((S.seen site.old).sink name.now).out }
    ensures back { SinkComesBack ((S.seen site.old).sink name.now) ((S.seen site.new).sink name.now) (S.Out.held sink) (S.Out.faults sink) }
    ensures others { ChangesSink name.now (S.seen site.old) (S.seen site.new) }
{
    site.back_sink(name.as_str(), sink);
}

/// Opens a sink, behind those before it.
fn open_next<S: Site>(
    name: &Text,
    number: usize,
    sinks: &mut Vec<S::Out>,
    site: &mut S,
) -> Result<(), Stopped>
    ensures opens { OpensSink S.Out.held S.Out.faults number sinks.old.items sinks.new.items ((S.seen site.old).sink name.now) ((S.seen site.new).sink name.now) result }
    ensures others { ChangesSink name.now (S.seen site.old) (S.seen site.new) }
{
    let sink = match open_named(name, site) {
        Ok(sink) => sink,
        Err(OutsideFault::Failed) => return Err(Stopped::At(number)),
        Err(OutsideFault::NoMemory) => return Err(Stopped::Memory),
    };
    match sinks.push(sink) {
        Ok(()) => Ok(()),
        Err(refused) => {
            back_sink(name, refused.value, site);
            Err(Stopped::Memory)
        }
    }
}

/// Gives all sinks back, the last one first. It takes no memory.
pub fn back_sinks<S: Site>(names: &[Text], sinks: Vec<S::Out>, site: &mut S)
    requires lengths { length sinks.items ≡ length names.now }
    requires out { (p : List ℕ) → times p names.now ≤ ((S.seen site.old).sink p).out }
    ensures { SinksBack S.Out.held S.Out.faults names.now sinks.items (S.seen site.old) (S.seen site.new) }
{
    let mut sinks = sinks;
    while let Some(sink) = sinks.pop() {
        back_sink(&names[sinks.len()], sink, site);
    }
    sinks.destroy_empty();
}

/// Opens the sinks of these names in order. At the first that can't be opened, those before it are given back.
pub fn open_sinks<S: Site>(
    alloc: Global,
    names: &[Text],
    site: &mut S,
) -> Result<Vec<S::Out>, Stopped>
    requires { AreDistinct names.now }
    ensures ok { IfOk result (λ sinks. SinksOut S.Out.held S.Out.faults names.now sinks.items (S.seen site.old) (S.seen site.new)) }
    ensures err { IfErr result (λ stopped. (n : ℕ) × SinksStopped n names.now stopped (S.seen site.old) (S.seen site.new)) }
{
    let mut sinks: Vec<S::Out> = Vec::new(alloc);
    for (i, name) in names.iter().enumerate() {
        if let Err(stopped) = open_next(name, i, &mut sinks, site) {
            back_sinks(&names[..i], sinks, site);
            return Err(stopped);
        }
    }
    Ok(sinks)
}
