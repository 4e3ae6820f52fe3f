// The lines of how many octets each output of generated load has, and what is said of its run.
ghost use Rattle.std.specs.Prelude.{◌≡◌, ◌++◌, IfOk, Result, length, map, max};
ghost use Rattle.site_io.specs.declared.outside.OutsideFault.{OutsideFault};
ghost use Rattle.call_spec.specs.Lines.{octets_line, lines_by};
ghost use Rattle.call_spec.specs.Status.{said_code};
ghost use Rattle.run_lines.specs.Ended.{ended_code, load_text, output_name, run_text};
ghost use Rattle.run_lines.specs.Says.{Says};

use crate::codes::{ended_code, said_code};
use crate::ended::Ended;
use crate::run::say_run;
use crate::saying::{Piece, say};
use col_base::Octets;
use config_spec::{Conf, OutputConf};
use site_io::{OutsideFault, Site};
use std::alloc::{AllocError, Global};

/// The line of how many octets an output has.
fn octets_line(alloc: Global, name: &[u8], count: u64) -> Result<Octets, AllocError>
    ensures { IfOk result (λ line. line ≡ octets_line name.now count) }
{
    let number = count.to_string(alloc)?;
    let mut line = Octets::from_slice(alloc, Piece::Octets.octets())?;
    line.extend(name)?;
    line.extend(Piece::Space.octets())?;
    line.extend(number.as_bytes())?;
    line.extend(Piece::End.octets())?;
    Ok(line)
}

fn say_octets_of<S: Site>(
    alloc: Global,
    conf: &OutputConf,
    count: u64,
    site: &mut S,
) -> Result<(), OutsideFault>
    ensures { Says (S.seen site.old) (S.seen site.new) (octets_line (output_name conf.now) count) result }
{
    let Ok(line) = octets_line(alloc, conf.name.as_str().as_bytes(), count) else {
        return Err(OutsideFault::NoMemory);
    };
    say(line.as_slice(), site)
}

/// Says the lines of how many octets each output has in order, up to the first that can't be said.
fn say_octets<S: Site>(
    alloc: Global,
    confs: &[OutputConf],
    counts: &[u64],
    site: &mut S,
) -> Result<(), OutsideFault>
    requires { length counts.now ≡ length confs.now }
    ensures { Says (S.seen site.old) (S.seen site.new) (lines_by octets_line (map output_name confs.now) counts.now) result }
{
    for (i, conf) in confs.iter().enumerate() {
        match say_octets_of(alloc, conf, counts[i], site) {
            Ok(()) => {}
            Err(fault) => return Err(fault),
        }
    }
    Ok(())
}

/// Says the lines of a run of generated load: those of its faults, its summary, and how many octets each output has.
fn say_load<S: Site>(
    alloc: Global,
    conf: &Conf,
    ended: &Ended,
    counts: &[u64],
    site: &mut S,
) -> Result<(), OutsideFault>
    requires inputs { length ended.now.inputs.items ≡ length conf.now.inputs }
    requires stages { length ended.now.stages.items ≡ length conf.now.stages }
    requires outputs { length ended.now.outputs.items ≡ length conf.now.outputs }
    requires counts { length counts.now ≡ length conf.now.outputs }
    ensures { Says (S.seen site.old) (S.seen site.new) (load_text conf.now ended.now counts.now) result }
{
    match say_run(alloc, conf, ended, site) {
        Ok(()) => say_octets(alloc, conf.outputs.as_slice(), counts, site),
        Err(fault) => Err(fault),
    }
}

/// Says the lines of a run of generated load, and answers its status: the greatest of what came in it and of saying them.
pub fn report_load<S: Site>(
    alloc: Global,
    conf: &Conf,
    ended: &Ended,
    counts: &[u64],
    site: &mut S,
) -> u8
    requires inputs { length ended.now.inputs.items ≡ length conf.now.inputs }
    requires stages { length ended.now.stages.items ≡ length conf.now.stages }
    requires outputs { length ended.now.outputs.items ≡ length conf.now.outputs }
    requires counts { length counts.now ≡ length conf.now.outputs }
    ensures { (said : Result (Unit {0}) OutsideFault) × Says (S.seen site.old) (S.seen site.new) (load_text conf.now ended.now counts.now) said
        × (result ≡ max (ended_code ended.now) (said_code said)) }
{
    let said = say_load(alloc, conf, ended, counts, site);
    ended_code(ended).max(said_code(said))
}
