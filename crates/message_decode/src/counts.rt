// What the sets of a message are counted by.
ghost use Rattle.std.specs.Prelude.{◌≡◌};

/// The counts of a message's sets. Each stands still at 2^64 - 1.
#[derive(Clone, Copy, Debug, PartialEq, Eq)]
pub struct SetCounts {
    /// Data records that were decoded.
    pub records: u64,
    /// Sets that were skipped.
    pub skipped: u64,
    /// Withdrawals over UDP, where they mean nothing.
    pub ignored: u64,
    /// Definitions that differ from the template that was valid just before.
    pub redefined: u64,
}

impl SetCounts {
    /// Nothing was counted.
    pub fn none() -> Self
        ensures { result ≡ record { records = 0; skipped = 0; ignored = 0; redefined = 0 } }
    {
        SetCounts {
            records: 0,
            skipped: 0,
            ignored: 0,
            redefined: 0,
        }
    }
}
