// How all inputs ended.
ghost use Rattle.std.specs.Prelude.{◌≡◌, length, map};
ghost use Rattle.run_entries.specs.Came.{end_or};

use call_spec::InputEnd;
use run_input::Input;
use site_io::Source;

/// How an input ended: that of a run has.
fn end_of(end: Option<InputEnd>) -> InputEnd
    ensures { result ≡ end_or end }
{
    end.unwrap_or(InputEnd::Memory)
}

/// Notes how each input ended. It takes no memory.
pub fn note_ends<S: Source>(inputs: &[Input<S>], ends: &mut Vec<InputEnd>)
    requires { length ends.old.items ≡ length inputs.now }
    ensures { ends.new.items ≡ map (λ x. end_or x.end) inputs.now }
{
    for index in 0..inputs.len() {
        ends[index] = end_of(inputs[index].end());
    }
}
