// The lines of what ended a run's inputs, log, intermediates and outputs.
ghost use Rattle.std.specs.Prelude.{◌≡◌, length, map};
ghost use Rattle.call_spec.specs.Lines.{input_line, log_line, output_line, sink_line, stage_line, lines_by};
ghost use Rattle.run_lines.specs.Ended.{input_name, stage_name, output_name};
ghost use Rattle.run_lines.specs.Says.{Says};

use crate::saying::{Piece, say_named};
use call_spec::{InputEnd, OutputFault};
use col_base::Text;
use config_spec::{InputConf, OutputConf, StageConf};
use site_io::{OutsideFault, Site};
use std::alloc::Global;

/// Says the line of an input that ended so, if it has one.
pub fn say_input<S: Site>(
    alloc: Global,
    name: &[u8],
    end: InputEnd,
    site: &mut S,
) -> Result<(), OutsideFault>
    ensures { Says (S.seen site.old) (S.seen site.new) (input_line name.now end) result }
{
    match end {
        InputEnd::End => Ok(()),
        InputEnd::Failed => say_named(alloc, Piece::Source, name, site),
        InputEnd::Limit => say_named(alloc, Piece::Limit, name, site),
        InputEnd::Memory => say_named(alloc, Piece::Wanting, name, site),
    }
}

/// Says the line of an output that ended so, if it has one.
pub fn say_output<S: Site>(
    alloc: Global,
    name: &[u8],
    fault: Option<OutputFault>,
    site: &mut S,
) -> Result<(), OutsideFault>
    ensures { Says (S.seen site.old) (S.seen site.new) (output_line name.now fault) result }
{
    match fault {
        None => Ok(()),
        Some(OutputFault::Failed) => say_named(alloc, Piece::Sink, name, site),
        Some(OutputFault::Limit) => say_named(alloc, Piece::Limit, name, site),
        Some(OutputFault::NoMemory) => say_named(alloc, Piece::Wanting, name, site),
    }
}

/// Says the line of the log that ended so, if it has one.
pub fn say_sink<S: Site>(
    alloc: Global,
    name: &[u8],
    fault: Option<OutsideFault>,
    site: &mut S,
) -> Result<(), OutsideFault>
    ensures { Says (S.seen site.old) (S.seen site.new) (sink_line name.now fault) result }
{
    match fault {
        None => Ok(()),
        Some(OutsideFault::Failed) => say_named(alloc, Piece::Sink, name, site),
        Some(OutsideFault::NoMemory) => say_named(alloc, Piece::Wanting, name, site),
    }
}

/// Says the line of an intermediate, if it wanted memory.
fn say_stage<S: Site>(
    alloc: Global,
    name: &[u8],
    wants: bool,
    site: &mut S,
) -> Result<(), OutsideFault>
    ensures { Says (S.seen site.old) (S.seen site.new) (stage_line name.now wants) result }
{
    if wants {
        say_named(alloc, Piece::Wanting, name, site)
    } else {
        Ok(())
    }
}

/// Says the log's line, if there is a log and it has one.
pub fn say_log<S: Site>(
    alloc: Global,
    log: &Option<Text>,
    fault: Option<OutsideFault>,
    site: &mut S,
) -> Result<(), OutsideFault>
    ensures { Says (S.seen site.old) (S.seen site.new) (log_line log.now fault) result }
{
    match log {
        None => Ok(()),
        Some(_) => say_sink(alloc, Piece::Log.octets(), fault, site),
    }
}

fn say_input_of<S: Site>(
    alloc: Global,
    conf: &InputConf,
    end: InputEnd,
    site: &mut S,
) -> Result<(), OutsideFault>
    ensures { Says (S.seen site.old) (S.seen site.new) (input_line (input_name conf.now) end) result }
{
    say_input(alloc, conf.spec.name.as_str().as_bytes(), end, site)
}

fn say_stage_of<S: Site>(
    alloc: Global,
    conf: &StageConf,
    wants: bool,
    site: &mut S,
) -> Result<(), OutsideFault>
    ensures { Says (S.seen site.old) (S.seen site.new) (stage_line (stage_name conf.now) wants) result }
{
    say_stage(alloc, conf.name.as_str().as_bytes(), wants, site)
}

fn say_output_of<S: Site>(
    alloc: Global,
    conf: &OutputConf,
    fault: Option<OutputFault>,
    site: &mut S,
) -> Result<(), OutsideFault>
    ensures { Says (S.seen site.old) (S.seen site.new) (output_line (output_name conf.now) fault) result }
{
    say_output(alloc, conf.name.as_str().as_bytes(), fault, site)
}

/// Says the lines of all inputs in order, up to the first that can't be said.
pub fn say_inputs<S: Site>(
    alloc: Global,
    confs: &[InputConf],
    ends: &[InputEnd],
    site: &mut S,
) -> Result<(), OutsideFault>
    requires { length ends.now ≡ length confs.now }
    ensures { Says (S.seen site.old) (S.seen site.new) (lines_by input_line (map input_name confs.now) ends.now) result }
{
    for (i, conf) in confs.iter().enumerate() {
        match say_input_of(alloc, conf, ends[i], site) {
            Ok(()) => {}
            Err(fault) => return Err(fault),
        }
    }
    Ok(())
}

/// Says the lines of all intermediates in order, up to the first that can't be said.
pub fn say_stages<S: Site>(
    alloc: Global,
    confs: &[StageConf],
    wants: &[bool],
    site: &mut S,
) -> Result<(), OutsideFault>
    requires { length wants.now ≡ length confs.now }
    ensures { Says (S.seen site.old) (S.seen site.new) (lines_by stage_line (map stage_name confs.now) wants.now) result }
{
    for (i, conf) in confs.iter().enumerate() {
        match say_stage_of(alloc, conf, wants[i], site) {
            Ok(()) => {}
            Err(fault) => return Err(fault),
        }
    }
    Ok(())
}

/// Says the lines of all outputs in order, up to the first that can't be said.
pub fn say_outputs<S: Site>(
    alloc: Global,
    confs: &[OutputConf],
    faults: &[Option<OutputFault>],
    site: &mut S,
) -> Result<(), OutsideFault>
    requires { length faults.now ≡ length confs.now }
    ensures { Says (S.seen site.old) (S.seen site.new) (lines_by output_line (map output_name confs.now) faults.now) result }
{
    for (i, conf) in confs.iter().enumerate() {
        match say_output_of(alloc, conf, faults[i], site) {
            Ok(()) => {}
            Err(fault) => return Err(fault),
        }
    }
    Ok(())
}
