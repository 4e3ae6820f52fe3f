// The inputs of a description, made over their sources.
ghost use Rattle.std.specs.Prelude.{◌≡◌, ◌≤◌, ◌<◌, ◌+◌, ◌++◌, [], IfErr, IfOk, OnErr, OnOk, length, reverse, vec_capacity, vec_len};
ghost use Rattle.result_spec.specs.Result.{inputs_of};
ghost use Rattle.run_input.specs.Inputs.{HasGiven};
ghost use Rattle.run_inputs.specs.Made.{AreMade, sources_of};

use crate::give::{give_last_first, put, turn_round};
use col_base::WantOfMemory;
use config_spec::Conf;
use run_input::Input;
use site_io::Source;
use std::alloc::Global;

/// Makes the input of this number over its source.
fn make_one<S: Source>(
    alloc: Global,
    conf: &Conf,
    number: usize,
    source: S,
) -> Result<Input<S>, (WantOfMemory, S)>
    requires few { number < 65536 }
    requires there { number < length conf.now.inputs }
    ensures made { IfOk result (λ input. HasGiven S.left S.faults source (inputs_of conf.now number) number [] [] input) }
    ensures source { IfOk result (λ input. input.inlet.source ≡ source) }
    ensures refused { IfErr result (λ refused. refused.1 ≡ source) }
{
    Input::new(
        alloc,
        &conf.inputs.as_slice()[number],
        number as u16,
        source,
    )
}

/// Makes inputs over sources that stand in the order of the last one first, behind none. Where memory is wanted, some were
/// made, and the source of the next is back.
fn make_all<S: Source>(
    alloc: Global,
    conf: &Conf,
    sources: &mut Vec<S>,
    inputs: &mut Vec<Input<S>>,
) -> Result<(), WantOfMemory>
    requires long { length sources.old.items ≡ length conf.now.inputs }
    requires few { length conf.now.inputs ≤ 65536 }
    requires none { inputs.old.items ≡ [] }
    requires room { length sources.old.items ≤ vec_capacity inputs.old }
    requires back { length sources.old.items ≤ vec_capacity sources.old }
    ensures made { OnOk result (AreMade S.left S.faults conf.now (reverse sources.old.items) inputs.new.items) }
    ensures empty { OnOk result (sources.new.items ≡ []) }
    ensures long { OnOk result (length inputs.new.items ≡ length conf.now.inputs) }
    ensures front { OnErr result (reverse sources.old.items ≡ sources_of inputs.new.items ++ reverse sources.new.items) }
    ensures back { length sources.old.items ≤ vec_capacity sources.new }
{
    while let Some(source) = sources.pop() {
        match make_one(alloc, conf, inputs.len(), source) {
            Ok(input) => put(inputs, input),
            Err((want, source)) => {
                put(sources, source);
                return Err(want);
            }
        }
    }
    Ok(())
}

/// Makes the inputs of a description over their sources, which stand in its order. The vector of sources is empty then, and
/// keeps its room. Where memory is wanted all sources stand in it as they did.
pub fn make_inputs<S: Source>(
    alloc: Global,
    conf: &Conf,
    sources: &mut Vec<S>,
) -> Result<Vec<Input<S>>, WantOfMemory>
    requires long { length sources.old.items ≡ length conf.now.inputs }
    requires few { length conf.now.inputs ≤ 65536 }
    ensures made { IfOk result (λ inputs. AreMade S.left S.faults conf.now sources.old.items inputs.items) }
    ensures empty { OnOk result (sources.new.items ≡ []) }
    ensures room { IfOk result (λ inputs. length inputs.items ≤ vec_capacity sources.new) }
    ensures refused { OnErr result (sources.new.items ≡ sources.old.items) }
{
    let mut inputs = Vec::new(alloc);
    if inputs.reserve(sources.len()).is_err() {
        inputs.destroy_empty();
        return Err(WantOfMemory);
    }
    turn_round(sources);
    match make_all(alloc, conf, sources, &mut inputs) {
        Ok(()) => Ok(inputs),
        Err(want) => {
            give_last_first(inputs, sources);
            turn_round(sources);
            Err(want)
        }
    }
}
