// What a source does where nothing is there.

use std::time::Duration;

/// How long a source waits, in milliseconds.
const WAIT: u64 = 100;

/// What a source does where it finds nothing.
#[derive(Clone, Copy, Debug, PartialEq, Eq)]
pub enum Waiting {
    /// It waits up to 100 milliseconds for something to come, as suits a source that is asked alone on its thread.
    Waits,
    /// It answers at once, as suits a source that is asked in turn with others: who asks them waits, once none had
    /// anything.
    Looks,
}

impl Waiting {
    /// The longest wait.
    pub(crate) fn longest(self) -> Duration {
        match self {
            Waiting::Waits => Duration::from_millis(WAIT),
            Waiting::Looks => Duration::from_millis(0),
        }
    }
}
