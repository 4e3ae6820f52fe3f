// The counts of all inputs, added up.
ghost use Rattle.std.specs.Prelude.{◌≡◌, List};
ghost use Rattle.call_spec.specs.Pairs.{Each};
ghost use Rattle.pipeline_message.specs.declared.run_counts.RunCounts.{RunCounts};
ghost use Rattle.run_entries.specs.Totals.{sums};
ghost use Rattle.run_input.specs.Inputs.{CountsAll};

use pipeline_message::RunCounts;
use run_input::{Input, added};
use site_io::Source;

/// The counts of all inputs, added up. Each stands still at 2^64 - 1.
pub fn total_counts<S: Source>(inputs: &[Input<S>]) -> RunCounts
    ensures { (cs : List RunCounts) × Each (λ _ x c. CountsAll x c) 0 inputs.now cs × (result ≡ sums cs) }
{
    let mut total = RunCounts::none();
    let mut left = inputs.len();
    while left > 0 {
        left -= 1;
        total = added(inputs[left].counts(), total);
    }
    total
}
