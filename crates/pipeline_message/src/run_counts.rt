// The counts of a run.
ghost use Rattle.std.specs.Prelude.{◌≡◌};

/// What a run counted of its events, messages and records. Each count stands still at 2^64 - 1.
#[derive(Clone, Copy, Debug, PartialEq, Eq)]
pub struct RunCounts {
    /// Sessions that opened.
    pub sessions: u64,
    /// Messages that were taken.
    pub messages: u64,
    /// Data records that were decoded.
    pub records: u64,
    /// Messages that break a rule of a message, and were dropped.
    pub malformed: u64,
    /// Messages over UDP that came too late after later ones, and were dropped.
    pub late: u64,
    /// Data Sets without a valid template or that are no records of it, and sets of IDs without a meaning.
    pub skipped: u64,
    /// Withdrawals over UDP, where they mean nothing.
    pub ignored: u64,
    /// Definitions that differ from the template that was valid just before.
    pub redefined: u64,
    /// Data records that are missing, by the sequence numbers of messages.
    pub lost: u64,
    /// Messages whose sequence number is behind the one that was due.
    pub disordered: u64,
    /// Sessions that ended within a message.
    pub torn: u64,
    /// Sessions that closed since their stream went on with no header of a message.
    pub broken: u64,
    /// Connections and datagrams of new peers for which no further session could open.
    pub refused: u64,
    /// Messages of a new domain in a session that had as many domains as it may have, which were dropped.
    pub crowded: u64,
    /// Events of no connection that is open, or of another transport.
    pub stray: u64,
}

impl RunCounts {
    /// Nothing was counted.
    pub fn none() -> Self
        ensures { result ≡ record { sessions = 0; messages = 0; records = 0; malformed = 0; late = 0; skipped = 0; ignored = 0; redefined = 0; lost = 0; disordered = 0; torn = 0; broken = 0; refused = 0; crowded = 0; stray = 0 } }
    {
        RunCounts {
            sessions: 0,
            messages: 0,
            records: 0,
            malformed: 0,
            late: 0,
            skipped: 0,
            ignored: 0,
            redefined: 0,
            lost: 0,
            disordered: 0,
            torn: 0,
            broken: 0,
            refused: 0,
            crowded: 0,
            stray: 0,
        }
    }
}
