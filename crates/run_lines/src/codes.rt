// Statuses.
ghost use Rattle.std.specs.Prelude.{◌≡◌, map, fold, max};
ghost use Rattle.call_spec.specs.Status.{end_code, fault_code, output_code, said_code, stage_code, wanted_code, worst};
ghost use Rattle.run_lines.specs.Ended.{ended_code};

use crate::ended::Ended;
use call_spec::{InputEnd, OutputFault};
use site_io::OutsideFault;

/// What an input that ended so gives to the status of a run.
pub fn end_code(end: InputEnd) -> u8
    ensures { result ≡ end_code end }
{
    match end {
        InputEnd::End => 0,
        InputEnd::Failed => 3,
        InputEnd::Limit => 5,
        InputEnd::Memory => 6,
    }
}

/// What the log gives to it.
pub fn fault_code(fault: Option<OutsideFault>) -> u8
    ensures { result ≡ fault_code fault }
{
    match fault {
        None => 0,
        Some(OutsideFault::Failed) => 4,
        Some(OutsideFault::NoMemory) => 6,
    }
}

/// What an output gives to it.
fn output_code(fault: Option<OutputFault>) -> u8
    ensures { result ≡ output_code fault }
{
    match fault {
        None => 0,
        Some(OutputFault::Failed) => 4,
        Some(OutputFault::Limit) => 5,
        Some(OutputFault::NoMemory) => 6,
    }
}

/// What an intermediate gives to it, which may have wanted memory.
fn stage_code(wants: bool) -> u8
    ensures { result ≡ stage_code wants }
{
    if wants { 6 } else { 0 }
}

/// What saying the lines of a run gives to its status.
pub fn said_code(said: Result<(), OutsideFault>) -> u8
    ensures { result ≡ said_code said }
{
    match said {
        Ok(()) => 0,
        Err(OutsideFault::Failed) => 4,
        Err(OutsideFault::NoMemory) => 6,
    }
}

/// What saying the line of a call without a run gives to its status: a fault changes none that was set before.
pub fn wanted_code(said: Result<(), OutsideFault>) -> u8
    ensures { result ≡ wanted_code said }
{
    match said {
        Ok(()) | Err(OutsideFault::Failed) => 0,
        Err(OutsideFault::NoMemory) => 6,
    }
}

fn worst_end(ends: &[InputEnd]) -> u8
    ensures { result ≡ worst (map end_code ends.now) }
{
    let mut most = 0;
    for end in ends {
        most = end_code(*end).max(most);
    }
    most
}

fn worst_output(faults: &[Option<OutputFault>]) -> u8
    ensures { result ≡ worst (map output_code faults.now) }
{
    let mut most = 0;
    for fault in faults {
        most = output_code(*fault).max(most);
    }
    most
}

fn worst_stage(stages: &[bool]) -> u8
    ensures { result ≡ worst (map stage_code stages.now) }
{
    let mut most = 0;
    for wants in stages {
        most = stage_code(*wants).max(most);
    }
    most
}

/// The greatest status that came to an input, the log, an intermediate or an output.
pub fn ended_code(ended: &Ended) -> u8
    ensures { result ≡ ended_code ended.now }
{
    let outputs = worst_stage(&ended.stages).max(worst_output(&ended.outputs));
    worst_end(&ended.inputs).max(fault_code(ended.log).max(outputs))
}
