// The line and the status of a description that could not be opened.
ghost use Rattle.std.specs.Prelude.{◌≡◌};
ghost use Rattle.call_spec.specs.Lines.{refusal_line};
ghost use Rattle.call_spec.specs.Plan.{described_parties};
ghost use Rattle.call_spec.specs.Status.{refusal_code};
ghost use Rattle.run_lines.specs.Says.{Says};
ghost use Rattle.described_texts.specs.Reports.{ReportsRefusal};
ghost use Rattle.site_openings.specs.All as opening;
ghost use Rattle.collect_call.specs.Unopened.{source_line, output_line};

use call_spec::{InputEnd, OutputFault};
use config_spec::{Conf, InputConf, OutputConf};
use run_lines::{Piece, say_input, say_output as say_output_end, say_piece, say_sink, wanted_code};
use site_io::{OutsideFault, Site};
use site_openings::Unopened;
use std::alloc::Global;

/// Says that the source of the input of this index failed, if there is such an input.
fn say_source<S: Site>(
    alloc: Global,
    inputs: &[InputConf],
    index: usize,
    site: &mut S,
) -> Result<(), OutsideFault>
    ensures { Says (S.seen site.old) (S.seen site.new) (source_line inputs.now index) result }
{
    if index < inputs.len() {
        let name = inputs[index].spec.name.as_str().as_bytes();
        say_input(alloc, name, InputEnd::Failed, site)
    } else {
        Ok(())
    }
}

/// Says that the sink of the output of this index failed, if there is such an output.
fn say_output<S: Site>(
    alloc: Global,
    outputs: &[OutputConf],
    index: usize,
    site: &mut S,
) -> Result<(), OutsideFault>
    ensures { Says (S.seen site.old) (S.seen site.new) (output_line outputs.now index) result }
{
    if index < outputs.len() {
        let name = outputs[index].name.as_str().as_bytes();
        say_output_end(alloc, name, Some(OutputFault::Failed), site)
    } else {
        Ok(())
    }
}

/// Says what could not be opened.
fn say_unopened<S: Site>(
    alloc: Global,
    conf: &Conf,
    unopened: Unopened,
    site: &mut S,
) -> Result<(), OutsideFault>
    ensures { Says (S.seen site.old) (S.seen site.new) (refusal_line (described_parties conf.now) (opening.refusal_of unopened)) result }
{
    match unopened {
        Unopened::Source(index) => say_source(alloc, conf.inputs.as_slice(), index, site),
        Unopened::Log => say_sink(alloc, Piece::Log.octets(), Some(OutsideFault::Failed), site),
        Unopened::Output(index) => say_output(alloc, conf.outputs.as_slice(), index, site),
        Unopened::Memory => say_piece(Piece::Memory, site),
    }
}

fn unopened_code(unopened: Unopened) -> u8
    ensures { result ≡ refusal_code (opening.refusal_of unopened) }
{
    match unopened {
        Unopened::Source(_) => 3,
        Unopened::Log | Unopened::Output(_) => 4,
        Unopened::Memory => 6,
    }
}

/// Says why a description isn't run, and answers the status: 3 for a source, 4 for a sink, and 6 where memory was wanted, for
/// the line too. A line that can't be said changes none of them.
pub fn report_unopened<S: Site>(alloc: Global, conf: &Conf, unopened: Unopened, site: &mut S) -> u8
    ensures { ReportsRefusal (described_parties conf.now) (opening.refusal_of unopened) (S.seen site.old) (S.seen site.new) result }
{
    let said = say_unopened(alloc, conf, unopened, site);
    unopened_code(unopened).max(wanted_code(said))
}
