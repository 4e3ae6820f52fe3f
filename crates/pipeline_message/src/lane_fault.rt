// How a stage broke.

/// Why a stage of a run ended early.
#[derive(Clone, Copy, Debug, PartialEq, Eq)]
pub enum LaneFault {
    /// It did not.
    Nothing,
    /// Its source failed.
    Source,
    /// Its sink failed.
    Sink,
    /// A number above its limit would be needed: the first such.
    Limit(u64),
    /// Memory was wanted.
    NoMemory,
}
