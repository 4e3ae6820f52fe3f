// What a source should not have done.

use site_io::{OutsideFault, Source, SourceEvent};
use std::alloc::{AllocError, AllocFailed};
use std::io;

/// Why a test can't go on.
#[derive(Clone, Copy, Debug, PartialEq, Eq)]
pub enum Wrong {
    Failed(OutsideFault),
    /// The other end of a socket failed.
    FarEnd,
    /// An event came that doesn't fit those before it.
    Event,
    /// What was waited for didn't come.
    Wanting,
}

impl From<OutsideFault> for Wrong {
    fn from(fault: OutsideFault) -> Self {
        Wrong::Failed(fault)
    }
}

impl From<AllocError> for Wrong {
    fn from(_: AllocError) -> Self {
        Wrong::Failed(OutsideFault::NoMemory)
    }
}

impl<T: Drop> From<AllocFailed<T>> for Wrong {
    fn from(_: AllocFailed<T>) -> Self {
        Wrong::Failed(OutsideFault::NoMemory)
    }
}

impl From<io::Error> for Wrong {
    fn from(_: io::Error) -> Self {
        Wrong::FarEnd
    }
}

/// A source's answer; a room that is too short is a fault.
pub fn ask<S: Source>(source: &mut S, room: &mut [u8]) -> Result<SourceEvent, OutsideFault> {
    if room.len() < 65535 {
        return Err(OutsideFault::Failed);
    }
    source.next(room)
}

/// How often a source found nothing, of so many calls.
pub fn quiet_calls<S: Source>(source: &mut S, room: &mut [u8], calls: u32) -> Result<u32, Wrong> {
    let mut quiet: u32 = 0;
    for _ in 0..calls {
        if let SourceEvent::NotYet = ask(source, room)? {
            quiet = quiet.saturating_add(1);
        }
    }
    Ok(quiet)
}
