// What an input counts.
ghost use Rattle.std.specs.Prelude.{◌≡◌};
ghost use Rattle.input_lane.specs.Tallies.{counts_of};

use pipeline_message::RunCounts;

/// The counts of an input. Each stands still at 2^64 - 1.
#[derive(Clone, Copy, Debug, PartialEq, Eq)]
pub struct Tally {
    /// Sessions that opened.
    pub sessions: u64,
    /// Sessions that ended within a message.
    pub torn: u64,
    /// Sessions whose stream went on with no header.
    pub broken: u64,
    /// Connections and datagrams for which no session could open.
    pub refused: u64,
    /// Events of no open connection, or of another transport.
    pub stray: u64,
}

/// These counts among those of a run: the others are 0.
pub fn counts(tally: Tally) -> RunCounts
    ensures { result ≡ counts_of tally }
{
    RunCounts {
        sessions: tally.sessions,
        torn: tally.torn,
        broken: tally.broken,
        refused: tally.refused,
        stray: tally.stray,
        ..RunCounts::none()
    }
}
