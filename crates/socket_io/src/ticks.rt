// The seconds of a clock, each told once.
ghost use Rattle.std.specs.Prelude.{◌≡◌, ◌≢◌, None, Some, IsSome, IfErr, OnErr, IfOk, MatchOption};

use site_io::OutsideFault;
use std::time::Clock;

/// A clock, and the seconds since 1970 that were told last.
#[derive(Drop)]
pub struct Ticks<R: Clock + Drop> {
    clock: R,
    last: Option<u32>,
}

impl<R: Clock + Drop> Ticks<R> {
    /// No second of the clock was told.
    pub fn new(clock: R) -> Self
        ensures { result.last ≡ None }
    {
        Ticks { clock, last: None }
    }

    /// The clock's seconds, where they are others than those that were told last. Failed is a clock that can't be read;
    /// it is not counted here.
    pub fn next(&mut self) -> Result<Option<u32>, OutsideFault>
        ensures told { IfOk result (λ answer. MatchOption answer ((self.new.last ≡ self.old.last) × IsSome self.old.last)
            (λ seconds. (self.old.last ≢ Some seconds) × (self.new.last ≡ Some seconds))) }
        ensures refused { OnErr result (self.new.last ≡ self.old.last) }
    {
        let Ok(since) = self.clock.since_1970() else {
            return Err(OutsideFault::Failed);
        };
        let seconds = u32::try_from(since.as_secs()).unwrap_or(u32::MAX);
        if self.last == Some(seconds) {
            return Ok(None);
        }
        self.last = Some(seconds);
        Ok(Some(seconds))
    }
}
