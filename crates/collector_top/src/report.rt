// The lines and the status of `direct`.
ghost use Rattle.std.specs.Prelude.{◌≡◌, ◌++◌, Result, max};
ghost use Rattle.site_io.specs.declared.outside.OutsideFault.{OutsideFault};
ghost use Rattle.call_spec.specs.Lines.{input_line, sink_line};
ghost use Rattle.call_spec.specs.Status.{end_code, fault_code, said_code, wanted_code};
ghost use Rattle.call_spec.specs.Plan.{in_name, out_name};
ghost use Rattle.run_lines.specs.Says.{Says};
ghost use Rattle.collector_top.specs.Direct.{unopened_line, unopened_code};

use crate::direct::Unopened;
use call_spec::InputEnd;
use file_lines::Ended;
use run_lines::{
    Piece, end_code, fault_code, said_code, say_input as say_input_named, say_piece, say_sink,
    wanted_code,
};
use site_io::{OutsideFault, Site};
use std::alloc::Global;

/// The name of the input in lines.
#[tactic(auto, unfolding(call_spec::specs::Plan::in_name))]
fn in_name() -> &'static [u8]
    ensures { result.now ≡ in_name }
{
    b"in"
}

/// The name of the output in lines.
#[tactic(auto, unfolding(call_spec::specs::Plan::out_name))]
fn out_name() -> &'static [u8]
    ensures { result.now ≡ out_name }
{
    b"out"
}

/// Says the line of the input, if it has one.
fn say_input<S: Site>(alloc: Global, end: InputEnd, site: &mut S) -> Result<(), OutsideFault>
    ensures { Says (S.seen site.old) (S.seen site.new) (input_line in_name end) result }
{
    say_input_named(alloc, in_name(), end, site)
}

/// Says the line of the output, if it has one.
fn say_output<S: Site>(
    alloc: Global,
    fault: Option<OutsideFault>,
    site: &mut S,
) -> Result<(), OutsideFault>
    ensures { Says (S.seen site.old) (S.seen site.new) (sink_line out_name fault) result }
{
    say_sink(alloc, out_name(), fault, site)
}

/// Says the lines of a run: that of the input, and then that of the output.
fn say_run<S: Site>(alloc: Global, ended: Ended, site: &mut S) -> Result<(), OutsideFault>
    ensures { Says (S.seen site.old) (S.seen site.new) (input_line in_name ended.input ++ sink_line out_name ended.output) result }
{
    match say_input(alloc, ended.input, site) {
        Ok(()) => say_output(alloc, ended.output, site),
        Err(fault) => Err(fault),
    }
}

/// Says the line of a call that was refused before its run.
fn say_unopened<S: Site>(alloc: Global, refusal: Unopened, site: &mut S) -> Result<(), OutsideFault>
    ensures { Says (S.seen site.old) (S.seen site.new) (unopened_line refusal) result }
{
    match refusal {
        Unopened::NoSource => say_input(alloc, InputEnd::Failed, site),
        Unopened::NoSink => say_output(alloc, Some(OutsideFault::Failed), site),
        Unopened::Memory => say_piece(Piece::Memory, site),
    }
}

fn unopened_code(refusal: Unopened) -> u8
    ensures { result ≡ unopened_code refusal }
{
    match refusal {
        Unopened::NoSource => 3,
        Unopened::NoSink => 4,
        Unopened::Memory => 6,
    }
}

/// Says the lines of a run, and answers its status: the greatest of what came to the input, to the output, and of
/// saying the lines.
pub fn report_run<S: Site>(alloc: Global, ended: Ended, site: &mut S) -> u8
    ensures { (said : Result (Unit {0}) OutsideFault) × Says (S.seen site.old) (S.seen site.new) (input_line in_name ended.input ++ sink_line out_name ended.output) said
        × (result ≡ max (max (end_code ended.input) (fault_code ended.output)) (said_code said)) }
{
    let said = say_run(alloc, ended, site);
    end_code(ended.input)
        .max(fault_code(ended.output))
        .max(said_code(said))
}

/// Says the line of a call that was refused before its run, and answers its status.
pub fn report_unopened<S: Site>(alloc: Global, refusal: Unopened, site: &mut S) -> u8
    ensures { (said : Result (Unit {0}) OutsideFault) × Says (S.seen site.old) (S.seen site.new) (unopened_line refusal) said
        × (result ≡ max (unopened_code refusal) (wanted_code said)) }
{
    let said = say_unopened(alloc, refusal, site);
    unopened_code(refusal).max(wanted_code(said))
}
