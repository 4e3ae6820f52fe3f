// Counts that are added up.
ghost use Rattle.std.specs.Prelude.{◌≡◌};
ghost use Rattle.pipeline_message.specs.Shown.{adds};
ghost use Rattle.run_input.specs.Sums.{both_counts};

use pipeline_message::RunCounts;

/// A count that rises by so much.
fn adds(count: u64, more: u64) -> u64
    ensures { result ≡ adds count more }
{
    count.saturating_add(more)
}

/// The counts of two, added up. Each stands still at 2^64 - 1.
pub fn added(a: RunCounts, b: RunCounts) -> RunCounts
    ensures { result ≡ both_counts a b }
{
    RunCounts {
        sessions: adds(a.sessions, b.sessions),
        messages: adds(a.messages, b.messages),
        records: adds(a.records, b.records),
        malformed: adds(a.malformed, b.malformed),
        late: adds(a.late, b.late),
        skipped: adds(a.skipped, b.skipped),
        ignored: adds(a.ignored, b.ignored),
        redefined: adds(a.redefined, b.redefined),
        lost: adds(a.lost, b.lost),
        disordered: adds(a.disordered, b.disordered),
        torn: adds(a.torn, b.torn),
        broken: adds(a.broken, b.broken),
        refused: adds(a.refused, b.refused),
        crowded: adds(a.crowded, b.crowded),
        stray: adds(a.stray, b.stray),
    }
}
