// What is said of a whole run, and its status.
ghost use Rattle.std.specs.Prelude.{◌≡◌, ◌++◌, length, map, max, Result};
ghost use Rattle.site_io.specs.declared.outside.OutsideFault.{OutsideFault};
ghost use Rattle.call_spec.specs.Lines.{log_line, stage_line, output_line, lines_by};
ghost use Rattle.call_spec.specs.Status.{said_code};
ghost use Rattle.run_lines.specs.Ended.{ended_code, fault_text, output_name, run_text, stage_name};
ghost use Rattle.run_lines.specs.Says.{Says};

use crate::codes::{ended_code, said_code};
use crate::ended::Ended;
use crate::faults::{say_inputs, say_log, say_outputs, say_stages};
use crate::summary::say_summary;
use config_spec::Conf;
use site_io::{OutsideFault, Site};
use std::alloc::Global;

/// Says the lines of the intermediates, and then those of the outputs.
fn say_behind_log<S: Site>(
    alloc: Global,
    conf: &Conf,
    ended: &Ended,
    site: &mut S,
) -> Result<(), OutsideFault>
    requires stages { length ended.now.stages.items ≡ length conf.now.stages }
    requires outputs { length ended.now.outputs.items ≡ length conf.now.outputs }
    ensures { Says (S.seen site.old) (S.seen site.new) (lines_by stage_line (map stage_name conf.now.stages) ended.now.stages.items ++ lines_by output_line (map output_name conf.now.outputs) ended.now.outputs.items) result }
{
    match say_stages(alloc, conf.stages.as_slice(), ended.stages.as_slice(), site) {
        Ok(()) => say_outputs(
            alloc,
            conf.outputs.as_slice(),
            ended.outputs.as_slice(),
            site,
        ),
        Err(fault) => Err(fault),
    }
}

/// Says the log's line, and those behind it.
fn say_behind_inputs<S: Site>(
    alloc: Global,
    conf: &Conf,
    ended: &Ended,
    site: &mut S,
) -> Result<(), OutsideFault>
    requires stages { length ended.now.stages.items ≡ length conf.now.stages }
    requires outputs { length ended.now.outputs.items ≡ length conf.now.outputs }
    ensures { Says (S.seen site.old) (S.seen site.new) (log_line conf.now.order_log ended.now.log ++ (lines_by stage_line (map stage_name conf.now.stages) ended.now.stages.items ++ lines_by output_line (map output_name conf.now.outputs) ended.now.outputs.items)) result }
{
    match say_log(alloc, &conf.order_log, ended.log, site) {
        Ok(()) => say_behind_log(alloc, conf, ended, site),
        Err(fault) => Err(fault),
    }
}

/// Says the lines of a run's faults, in the order inputs, log, intermediates, outputs.
fn say_faults<S: Site>(
    alloc: Global,
    conf: &Conf,
    ended: &Ended,
    site: &mut S,
) -> Result<(), OutsideFault>
    requires inputs { length ended.now.inputs.items ≡ length conf.now.inputs }
    requires stages { length ended.now.stages.items ≡ length conf.now.stages }
    requires outputs { length ended.now.outputs.items ≡ length conf.now.outputs }
    ensures { Says (S.seen site.old) (S.seen site.new) (fault_text conf.now ended.now) result }
{
    match say_inputs(alloc, conf.inputs.as_slice(), ended.inputs.as_slice(), site) {
        Ok(()) => say_behind_inputs(alloc, conf, ended, site),
        Err(fault) => Err(fault),
    }
}

/// Says the lines of a run: those of its faults, and then its summary.
pub fn say_run<S: Site>(
    alloc: Global,
    conf: &Conf,
    ended: &Ended,
    site: &mut S,
) -> Result<(), OutsideFault>
    requires inputs { length ended.now.inputs.items ≡ length conf.now.inputs }
    requires stages { length ended.now.stages.items ≡ length conf.now.stages }
    requires outputs { length ended.now.outputs.items ≡ length conf.now.outputs }
    ensures { Says (S.seen site.old) (S.seen site.new) (run_text conf.now ended.now) result }
{
    match say_faults(alloc, conf, ended, site) {
        Ok(()) => say_summary(alloc, ended, site),
        Err(fault) => Err(fault),
    }
}

/// Says the lines of a run, and answers its status: the greatest of what came in it and of saying them.
pub fn report_run<S: Site>(alloc: Global, conf: &Conf, ended: &Ended, site: &mut S) -> u8
    requires inputs { length ended.now.inputs.items ≡ length conf.now.inputs }
    requires stages { length ended.now.stages.items ≡ length conf.now.stages }
    requires outputs { length ended.now.outputs.items ≡ length conf.now.outputs }
    ensures { (said : Result (Unit {0}) OutsideFault) × Says (S.seen site.old) (S.seen site.new) (run_text conf.now ended.now) said
        × (result ≡ max (ended_code ended.now) (said_code said)) }
{
    let said = say_run(alloc, conf, ended, site);
    ended_code(ended).max(said_code(said))
}
