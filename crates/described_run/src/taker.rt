// The log and the outputs of a run, over their sinks.
ghost use Rattle.std.specs.Prelude.{◌≡◌, ◌≤◌, ◌<◌, ◌+◌, ◌++◌, ◌∷◌, [], IfOk, None, length, map, vec_capacity, vec_len};
ghost use Rattle.std.specs.List.{AllByRecursion};
ghost use Rattle.run_came.specs.Ran.{IsNew, IsNewLog, log_sinks, output_sinks, sinks_of};
ghost use Rattle.described_run.specs.Ready.{output_over};

use col_base::WantOfMemory;
use logged_outputs::{LoggedOutputs, Output, Outputs};
use message_stages::Stages;
use message_texts::MessageTexts;
use order_log::OrderLog;
use run_inputs::{put, turn_round};
use site_io::Sink;
use std::alloc::Global;

/// What is made ready for a run before anything is opened: its intermediates, what makes the texts of each of its outputs,
/// and room for the outputs.
pub struct Ready<T, K> {
    pub stages: Stages,
    pub texts: Vec<T>,
    pub room: Vec<Output<T, K>>,
}

/// Room for so many outputs.
pub fn room_for_outputs<T, K>(
    alloc: Global,
    count: usize,
) -> Result<Vec<Output<T, K>>, WantOfMemory>
    ensures empty { IfOk result (λ room. room.items ≡ []) }
    ensures room { IfOk result (λ room. count ≤ vec_capacity room) }
{
    let mut room = Vec::new(alloc);
    if room.reserve(count).is_err() {
        room.destroy_empty();
        return Err(WantOfMemory);
    }
    Ok(room)
}

/// Puts an output over the last of the sinks behind others. It takes no memory.
fn begin_last<T: MessageTexts, K: Sink>(
    texts: T,
    sinks: &mut Vec<K>,
    outputs: &mut Vec<Output<T, K>>,
)
    requires some { 1 ≤ vec_len sinks.old }
    requires room { vec_len outputs.old < vec_capacity outputs.old }
    ensures over { (sink : K) × (sinks.old.items ≡ sinks.new.items ++ sink ∷ []) × (outputs.new.items ≡ outputs.old.items ++ output_over texts sink ∷ []) }
    ensures sinks_room { vec_capacity sinks.new ≡ vec_capacity sinks.old }
    ensures room { vec_capacity outputs.old ≤ vec_capacity outputs.new }
{
    match sinks.pop() {
        None => unreachable!(),
        Some(sink) => put(
            outputs,
            Output {
                texts,
                sink,
                fault: None,
            },
        ),
    }
}

/// Puts an output for each of these makers of texts over its sink, the last of both first. A sink that stands before them
/// is left.
fn begin_outputs<T: MessageTexts + Drop, K: Sink>(
    texts: Vec<T>,
    sinks: &mut Vec<K>,
    outputs: &mut Vec<Output<T, K>>,
)
    requires some { length texts.items ≤ vec_len sinks.old }
    requires empty { outputs.old.items ≡ [] }
    requires room { length texts.items ≤ vec_capacity outputs.old }
    ensures over { sinks.old.items ≡ sinks.new.items ++ output_sinks outputs.new.items }
    ensures make { map (λ o. o.texts) outputs.new.items ≡ texts.items }
    ensures go_on { AllByRecursion (λ o. o.fault ≡ None) outputs.new.items }
    ensures room { vec_capacity sinks.new ≡ vec_capacity sinks.old }
{
    let mut makers = texts;
    while let Some(maker) = makers.pop() {
        begin_last(maker, sinks, outputs);
    }
    makers.destroy_empty();
    turn_round(outputs);
}

/// A log without entries, if it has a sink. It takes no memory.
fn begin_log<K: Sink>(log: Option<K>) -> Option<OrderLog<K>>
    ensures { IsNewLog K.held K.faults log result }
{
    match log {
        None => None,
        Some(sink) => Some(OrderLog::new(sink)),
    }
}

/// A log without entries over the first of the sinks, if there is one more than makers of texts, and an output of each over
/// the others, in order. The vector of sinks keeps its room. It takes no memory.
pub fn begin<T: MessageTexts + Drop, K: Sink>(
    ready: Ready<T, K>,
    sinks: &mut Vec<K>,
) -> LoggedOutputs<T, K>
    requires some { length ready.texts.items ≤ vec_len sinks.old }
    requires few { vec_len sinks.old ≤ length ready.texts.items + 1 }
    requires empty { ready.room.items ≡ [] }
    requires room { length ready.texts.items ≤ vec_capacity ready.room }
    ensures new { IsNew K.held K.faults sinks.old.items ready.stages ready.texts.items result }
    ensures empty { sinks.new.items ≡ [] }
    ensures room { vec_capacity sinks.new ≡ vec_capacity sinks.old }
{
    let Ready {
        stages,
        texts,
        room: mut outputs,
    } = ready;
    begin_outputs(texts, sinks, &mut outputs);
    LoggedOutputs {
        log: begin_log(sinks.pop()),
        outputs: Outputs {
            stages,
            wanting: None,
            outputs,
        },
    }
}

/// The sink of an output.
fn sink_of<T: Drop, K>(output: Output<T, K>) -> K
    ensures { result ≡ output.sink }
{
    let Output { sink, .. } = output;
    sink
}

/// Gives the sinks of outputs back behind others, in order, for which there is room. It takes no memory.
fn end_outputs<T: Drop, K>(outputs: Vec<Output<T, K>>, sinks: &mut Vec<K>)
    requires { vec_len sinks.old + length outputs.items ≤ vec_capacity sinks.old }
    ensures { sinks.new.items ≡ sinks.old.items ++ output_sinks outputs.items }
{
    let mut left = outputs;
    turn_round(&mut left);
    while let Some(output) = left.pop() {
        put(sinks, sink_of(output));
    }
    left.destroy_empty();
}

/// Gives the sink of a log back, if there is one, into a vector that has room for it. It takes no memory.
fn end_log<K: Sink>(log: Option<OrderLog<K>>, sinks: &mut Vec<K>)
    requires empty { sinks.old.items ≡ [] }
    requires room { length (log_sinks log) ≤ vec_capacity sinks.old }
    ensures log { sinks.new.items ≡ log_sinks log }
    ensures room { vec_capacity sinks.old ≤ vec_capacity sinks.new }
{
    if let Some(log) = log {
        put(sinks, log.back());
    }
}

/// Gives the sinks of a log and of outputs back, into a vector that has room for them. It takes no memory.
pub fn end<T: MessageTexts + Drop, K: Sink>(taker: LoggedOutputs<T, K>, sinks: &mut Vec<K>)
    requires empty { sinks.old.items ≡ [] }
    requires room { length (sinks_of taker) ≤ vec_capacity sinks.old }
    ensures { sinks.new.items ≡ sinks_of taker }
{
    let LoggedOutputs { log, outputs } = taker;
    let Outputs { outputs, .. } = outputs;
    end_log(log, sinks);
    end_outputs(outputs, sinks);
}
