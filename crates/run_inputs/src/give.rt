// The sources of inputs, given back.
ghost use Rattle.std.specs.Prelude.{◌≡◌, ◌≤◌, ◌<◌, ◌+◌, ◌++◌, ◌∷◌, [], length, reverse, vec_capacity, vec_len};
ghost use Rattle.run_inputs.specs.Made.{sources_of};

use run_input::Input;
use site_io::Source;

/// Puts a value behind others, for which there is room. It takes no memory.
pub fn put<T>(values: &mut Vec<T>, value: T)
    requires { vec_len values.old < vec_capacity values.old }
    ensures put { values.new.items ≡ values.old.items ++ value ∷ [] }
    ensures len { vec_len values.new ≡ vec_len values.old + 1 }
    ensures room { vec_capacity values.old ≤ vec_capacity values.new }
{
    match values.push(value) {
        Ok(()) => {}
        Err(_) => unreachable!(),
    }
}

/// Turns the order of values round. It takes no memory.
pub fn turn_round<T>(values: &mut Vec<T>)
    ensures turned { values.new.items ≡ reverse values.old.items }
    ensures room { vec_capacity values.new ≡ vec_capacity values.old }
{
    values.as_mut_slice().reverse();
}

/// Gives the sources of inputs back behind others, that of the last one first. It takes no memory.
pub fn give_last_first<S: Source>(inputs: Vec<Input<S>>, sources: &mut Vec<S>)
    requires { vec_len sources.old + length inputs.items ≤ vec_capacity sources.old }
    ensures given { sources.new.items ≡ sources.old.items ++ reverse (sources_of inputs.items) }
{
    let mut inputs = inputs;
    while let Some(input) = inputs.pop() {
        put(sources, input.back());
    }
    inputs.destroy_empty();
}

/// Gives the sources of inputs back, in order, into an empty vector with room for them. It takes no memory.
pub fn give_back<S: Source>(inputs: Vec<Input<S>>, sources: &mut Vec<S>)
    requires empty { sources.old.items ≡ [] }
    requires room { length inputs.items ≤ vec_capacity sources.old }
    ensures { sources.new.items ≡ sources_of inputs.items }
{
    give_last_first(inputs, sources);
    turn_round(sources);
}
