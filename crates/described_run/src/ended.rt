// How a run ended: room for that, and notes of it.
ghost use Rattle.std.specs.Prelude.{◌≡◌, ℕ, IfOk, false, length, map, replicate};
ghost use Rattle.run_came.specs.Ends.{log_fault, wanting};
ghost use Rattle.run_came.specs.Told.{IsNoted};

use call_spec::{InputEnd, OutputFault};
use config_spec::Conf;
use logged_outputs::{LoggedOutputs, Output};
use message_texts::MessageTexts;
use order_log::OrderLog;
use pipeline_message::RunCounts;
use run_input::Input;
use run_inputs::{note_ends, total_counts};
use run_lines::Ended;
use site_io::{OutsideFault, Sink, Source};
use std::alloc::{AllocError, Global};

/// Room for how a run of a description ends.
pub fn room_for(alloc: Global, conf: &Conf) -> Result<Ended, AllocError>
    ensures inputs { IfOk result (λ ended. length ended.inputs.items ≡ length conf.now.inputs) }
    ensures stages { IfOk result (λ ended. ended.stages.items ≡ replicate (length conf.now.stages) false) }
    ensures outputs { IfOk result (λ ended. length ended.outputs.items ≡ length conf.now.outputs) }
{
    Ok(Ended {
        inputs: vec![in alloc; InputEnd::End; conf.inputs.len()]?,
        log: None,
        stages: vec![in alloc; false; conf.stages.len()]?,
        outputs: vec![in alloc; None; conf.outputs.len()]?,
        counts: RunCounts::none(),
    })
}

/// Why the order log ended, if there is one and it did.
fn log_fault<K: Sink>(log: &Option<OrderLog<K>>) -> Option<OutsideFault>
    ensures { result ≡ log_fault log.now }
{
    match log {
        None => None,
        Some(log) => log.fault(),
    }
}

/// Notes which intermediate wanted memory, if one did, where none is noted yet.
fn note_stage(wants: Option<usize>, stages: &mut Vec<bool>)
    ensures { (count : ℕ) → stages.old.items ≡ replicate count false → stages.new.items ≡ wanting count wants }
{
    if let Some(index) = wants {
        if index < stages.len() {
            stages[index] = true;
        }
    }
}

/// Notes why each output ended, if it did.
fn note_outputs<T, K>(outputs: &[Output<T, K>], faults: &mut Vec<Option<OutputFault>>)
    requires { length faults.old.items ≡ length outputs.now }
    ensures { faults.new.items ≡ map (λ o. o.fault) outputs.now }
{
    for index in 0..outputs.len() {
        faults[index] = outputs[index].fault;
    }
}

/// Notes how the inputs, the log, the intermediates and the outputs of a run ended, and what was counted. It takes no memory.
pub fn note_all<S: Source, T: MessageTexts, K: Sink>(
    inputs: &[Input<S>],
    taker: &LoggedOutputs<T, K>,
    ended: &mut Ended,
)
    requires inputs { length ended.old.inputs.items ≡ length inputs.now }
    requires outputs { length ended.old.outputs.items ≡ length taker.now.outputs.outputs.items }
    ensures { (count : ℕ) → ended.old.stages.items ≡ replicate count false → IsNoted count inputs.now taker.now ended.new }
{
    note_ends(inputs, &mut ended.inputs);
    ended.log = log_fault(&taker.log);
    note_stage(taker.outputs.wanting, &mut ended.stages);
    note_outputs(&taker.outputs.outputs, &mut ended.outputs);
    ended.counts = total_counts(inputs);
}
