// The run of generated load.
ghost use Rattle.std.specs.Prelude.{◌≡◌, ◌≤◌, ◌∷◌, [], ℕ, IfOk, false, length, map, replicate};
ghost use Rattle.std.specs.List.{AllByRecursion};
ghost use Rattle.text_spec.specs.Builtin.{builtin_rows};
ghost use Rattle.call_spec.specs.Load.{load_conf};
ghost use Rattle.load_gen.specs.declared.source.LoadSource.{LoadSource};
ghost use Rattle.load_gen.specs.Left.{load_left};
ghost use Rattle.load_spec.specs.Load.{load_events};
ghost use Rattle.collect_call.specs.Runs.{IsPrepared};
ghost use Rattle.generate_call.specs.Ran.{CameToLoad, HasRoom, IsOver, total_of};

use collect_call::Prepared;
use config_spec::Conf;
use described_run::{Ready, end, hand_on, note_all, room_for, room_for_outputs};
use load_gen::LoadSource;
use output_texts::OutputTexts;
use run_input::Input;
use run_inputs::{give_back, make_inputs};
use run_lines::Ended;
use site_io::TallySink;
use std::alloc::{AllocError, Global};
use std::rt::Clock;
use std::sync::Wait;

/// What came of generated load: how all ended, and how many octets each output has.
#[derive(Drop)]
pub struct Load {
    pub ended: Ended,
    pub lengths: Vec<u64>,
}

/// Room for what comes of a run.
fn room_for_load(alloc: Global, conf: &Conf) -> Result<Load, AllocError>
    ensures inputs { IfOk result (λ load. length load.ended.inputs.items ≡ length conf.now.inputs) }
    ensures stages { IfOk result (λ load. load.ended.stages.items ≡ replicate (length conf.now.stages) false) }
    ensures outputs { IfOk result (λ load. length load.ended.outputs.items ≡ length conf.now.outputs) }
    ensures lengths { IfOk result (λ load. length load.lengths.items ≡ length conf.now.outputs) }
{
    Ok(Load {
        ended: room_for(alloc, conf)?,
        lengths: vec![in alloc; 0; conf.outputs.len()]?,
    })
}

/// The one source.
fn source(alloc: Global, number: u64, count: u32) -> Result<Vec<LoadSource>, AllocError>
    requires { (1 ≤ count) × (count ≤ 1000000) }
    ensures { IfOk result (λ sources. (s : LoadSource) × (sources.items ≡ s ∷ []) × (load_left s ≡ load_events number count)) }
{
    let mut sources = Vec::with_capacity(alloc, 1)?;
    sources.push(LoadSource::new(number, count))?;
    Ok(sources)
}

/// So many sinks that were given nothing.
fn sinks(alloc: Global, count: usize) -> Result<Vec<TallySink>, AllocError>
    ensures long { IfOk result (λ sinks. length sinks.items ≡ count) }
    ensures fresh { IfOk result (λ sinks. AllByRecursion (λ k. total_of k ≡ 0) sinks.items) }
{
    let mut sinks = Vec::with_capacity(alloc, count)?;
    for _ in 0..count {
        sinks.push(TallySink::new())?;
    }
    Ok(sinks)
}

/// Notes how many octets each sink was given.
fn note_lengths(sinks: &[TallySink], lengths: &mut Vec<u64>)
    requires { length lengths.old.items ≡ length sinks.now }
    ensures { lengths.new.items ≡ map total_of sinks.now }
{
    for index in 0..sinks.len() {
        lengths[index] = sinks[index].len();
    }
}

/// Runs over the source and the sinks, and notes what came of it.
fn run_over<R: Wait + Clock>(
    rt: &R,
    ready: Ready<OutputTexts, TallySink>,
    inputs: &mut Vec<Input<LoadSource>>,
    sinks: &mut Vec<TallySink>,
    load: &mut Load,
)
    requires over { (number : ℕ) × (count : ℕ) × IsOver number count inputs.old.items sinks.old.items ready }
    requires room { HasRoom load.old }
    ensures came { (number count : ℕ) → IsOver number count inputs.old.items sinks.old.items ready → CameToLoad number count load.new }
    ensures as_many { length inputs.new.items ≡ length inputs.old.items }
{
    let taker = hand_on(rt, ready, inputs, sinks);
    note_all(inputs, &taker, &mut load.ended);
    end(taker, sinks);
    note_lengths(sinks, &mut load.lengths);
}

/// Runs generated load of so many messages, from 1 to 1,000,000, through its description, whose intermediates and outputs are
/// prepared. It fails where memory is wanted before anything runs.
pub fn run_load<R: Wait + Clock>(
    alloc: Global,
    rt: &R,
    conf: &Conf,
    prepared: Prepared,
    number: u64,
    count: u32,
) -> Result<Load, AllocError>
    requires count { (1 ≤ count) × (count ≤ 1000000) }
    requires conf { conf.now ≡ load_conf }
    requires prepared { IsPrepared load_conf builtin_rows prepared }
    ensures { IfOk result (CameToLoad number count) }
{
    let Prepared {
        names: _names,
        stages,
        texts,
    } = prepared;
    let mut load = room_for_load(alloc, conf)?;
    let mut sinks = sinks(alloc, conf.outputs.len())?;
    let mut sources = source(alloc, number, count)?;
    let Ok(room) = room_for_outputs(alloc, texts.len()) else {
        return Err(AllocError);
    };
    let Ok(mut inputs) = make_inputs(alloc, conf, &mut sources) else {
        room.destroy_empty();
        return Err(AllocError);
    };
    let ready = Ready {
        stages,
        texts,
        room,
    };
    run_over(rt, ready, &mut inputs, &mut sinks, &mut load);
    give_back(inputs, &mut sources);
    Ok(load)
}
