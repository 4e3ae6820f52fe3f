// What ends a file.
ghost use Rattle.std.specs.Prelude.{◌≡◌};
ghost use Rattle.file_output.specs.declared.fault.FileFault.TheVariants.{NoMemory};

use col_base::WantOfMemory;
use std::alloc::{AllocError, AllocFailed};

/// Why a message isn't written.
#[derive(Clone, Copy, Debug, PartialEq, Eq)]
pub enum FileFault {
    /// A definition needs this number, and it is above the last one that is allowed.
    Limit(u64),
    /// Memory was wanted and not there.
    NoMemory,
}

impl From<AllocError> for FileFault {
    ghost from_gives = { λ _ fault. fault ≡ NoMemory };

    fn from(_: AllocError) -> Self {
        FileFault::NoMemory
    }
}

impl From<WantOfMemory> for FileFault {
    ghost from_gives = { λ _ fault. fault ≡ NoMemory };

    fn from(_: WantOfMemory) -> Self {
        FileFault::NoMemory
    }
}

impl<T: Drop> From<AllocFailed<T>> for FileFault {
    ghost from_gives = { λ _ fault. fault ≡ NoMemory };

    fn from(_: AllocFailed<T>) -> Self {
        FileFault::NoMemory
    }
}
