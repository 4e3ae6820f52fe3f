// The sources of all inputs: opened in order, and given back.
ghost use Rattle.std.specs.Prelude.{◌≡◌, ◌≤◌, ◌<◌, ℕ, List, IfOk, IfErr, length};
ghost use Rattle.site_io.specs.Seen.{ChangesPlace, SourceComesBack};
ghost use Rattle.call_spec.specs.Names.{times};
ghost use Rattle.site_openings.specs.Places.{places_of, OpensSource, SourcesOut, SourcesBack, SourcesStopped};

use crate::stopped::Stopped;
use config_spec::InputConf;
use site_io::{OutsideFault, Site};
use std::alloc::Global;

/// Gives back the source of an input.
fn back_source<S: Site>(conf: &InputConf, source: S::Src, site: &mut S)
    requires out { 0 < ((S.seen site.old).place conf.now.spec.place).out }
    ensures back { SourceComesBack ((S.seen site.old).place conf.now.spec.place) ((S.seen site.new).place conf.now.spec.place) (S.Src.left source) (S.Src.faults source) }
    ensures others { ChangesPlace conf.now.spec.place (S.seen site.old) (S.seen site.new) }
{
    site.back_source(&conf.spec, source);
}

/// Opens the source of an input, behind those before it.
fn open_next<S: Site>(
    conf: &InputConf,
    number: usize,
    sources: &mut Vec<S::Src>,
    site: &mut S,
) -> Result<(), Stopped>
    ensures opens { OpensSource S.Src.left S.Src.faults number sources.old.items sources.new.items
        ((S.seen site.old).place conf.now.spec.place) ((S.seen site.new).place conf.now.spec.place) result }
    ensures others { ChangesPlace conf.now.spec.place (S.seen site.old) (S.seen site.new) }
{
    let source = match site.open_source(&conf.spec) {
        Ok(source) => source,
        Err(OutsideFault::Failed) => return Err(Stopped::At(number)),
        Err(OutsideFault::NoMemory) => return Err(Stopped::Memory),
    };
    match sources.push(source) {
        Ok(()) => Ok(()),
        Err(refused) => {
            back_source(conf, refused.value, site);
            Err(Stopped::Memory)
        }
    }
}

/// Gives all sources back, the last one first. It takes no memory.
pub fn back_sources<S: Site>(confs: &[InputConf], sources: Vec<S::Src>, site: &mut S)
    requires lengths { length sources.items ≡ length confs.now }
    requires out { (p : List ℕ) → times p (places_of confs.now) ≤ ((S.seen site.old).place p).out }
    ensures { SourcesBack S.Src.left S.Src.faults (places_of confs.now) sources.items (S.seen site.old) (S.seen site.new) }
{
    let mut sources = sources;
    while let Some(source) = sources.pop() {
        back_source(&confs[sources.len()], source, site);
    }
    sources.destroy_empty();
}

/// Opens the sources of all inputs in order. At the first that can't be opened, those before it are given back.
pub fn open_sources<S: Site>(
    alloc: Global,
    confs: &[InputConf],
    site: &mut S,
) -> Result<Vec<S::Src>, Stopped>
    ensures ok { IfOk result (λ sources. SourcesOut S.Src.left S.Src.faults (places_of confs.now) sources.items (S.seen site.old) (S.seen site.new)) }
    ensures err { IfErr result (λ stopped. (n : ℕ) × SourcesStopped n (places_of confs.now) stopped (S.seen site.old) (S.seen site.new)) }
{
    let mut sources: Vec<S::Src> = Vec::new(alloc);
    for (i, conf) in confs.iter().enumerate() {
        if let Err(stopped) = open_next(conf, i, &mut sources, site) {
            back_sources(&confs[..i], sources, site);
            return Err(stopped);
        }
    }
    Ok(sources)
}
