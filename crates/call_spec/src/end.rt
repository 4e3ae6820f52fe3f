// How the reading of an input ends, and why an output ends.

/// How the reading of an input ended. Each is told by a line and a status of its own, but `End`.
#[derive(Clone, Copy, Debug, PartialEq, Eq)]
pub enum InputEnd {
    /// Its source has no more.
    End,
    /// Its source failed: nothing was asked of it behind that.
    Failed,
    /// The most answers that are taken were given, 2^48, NotYet among them.
    Limit,
    /// Memory was wanted to read, cut or decode what came.
    Memory,
}

/// Why an output ended before its text did. Each is told by a line and a status of its own.
#[derive(Clone, Copy, Debug, PartialEq, Eq)]
pub enum OutputFault {
    /// Its sink failed: nothing was written behind that.
    Failed,
    /// A Template ID above the last one that it may use was needed: it holds its text of the messages before.
    Limit,
    /// Memory was wanted for its text, or for writing it.
    NoMemory,
}
