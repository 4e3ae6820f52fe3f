// What is counted of a message.
ghost use Rattle.std.specs.Prelude.{◌≡◌, if◌then◌else◌};
ghost use Rattle.pipeline_message.specs.Shown.{adds};
ghost use Rattle.session_domains.specs.declared.fate.Fate.TheVariants.{Taken};
ghost use Rattle.parser_lane.specs.Parsers.{counts_by, malformed_by};

use pipeline_message::RunCounts;
use session_domains::{Fate, TakenMessage};

/// 1 where it is so.
fn one_if(is: bool) -> u64
    ensures { result ≡ (if is then 1 else 0) }
{
    if is { 1 } else { 0 }
}

/// A count that rises by so much.
fn adds(count: u64, more: u64) -> u64
    ensures { result ≡ adds count more }
{
    count.saturating_add(more)
}

/// The counts with those of one more message that is taken.
fn counted_taken(counts: RunCounts, taken: &TakenMessage) -> RunCounts
    ensures { result ≡ counts_by (Taken taken.now) counts }
{
    RunCounts {
        messages: adds(counts.messages, 1),
        records: adds(counts.records, taken.counts.records),
        skipped: adds(counts.skipped, taken.counts.skipped),
        ignored: adds(counts.ignored, taken.counts.ignored),
        redefined: adds(counts.redefined, taken.counts.redefined),
        lost: adds(counts.lost, u64::from(taken.lost)),
        disordered: adds(counts.disordered, one_if(taken.behind)),
        ..counts
    }
}

/// The counts with those of one more message that is well formed.
pub fn counted(counts: RunCounts, fate: &Fate) -> RunCounts
    ensures { result ≡ counts_by fate.now counts }
{
    match fate {
        Fate::Crowded => RunCounts {
            crowded: adds(counts.crowded, 1),
            ..counts
        },
        Fate::Late => RunCounts {
            late: adds(counts.late, 1),
            ..counts
        },
        Fate::Taken(taken) => counted_taken(counts, taken),
    }
}

/// The counts with one more message that is malformed.
pub fn malformed(counts: RunCounts) -> RunCounts
    ensures { result ≡ malformed_by counts }
{
    RunCounts {
        malformed: adds(counts.malformed, 1),
        ..counts
    }
}
