// What is wrong with a description.
ghost use Rattle.config_spec.specs.First.{IsMemory};

use col_base::Text;
use std::alloc::AllocError;

/// The first fault of a description. A text is the path of a key: names and places from 0, joined by dots,
/// as in `input.0.kind`.
#[derive(Clone, Debug, PartialEq, Eq, Drop)]
pub enum ConfFault {
    NotToml,
    /// The table, or a table of its kind, has no such key.
    UnknownKey(Text),
    Missing(Text),
    WrongType(Text),
    OutOfRange(Text),
    /// The kind is none that is known.
    UnknownPlugin(Text),
    /// The name, the path or the prefix, as it was written, stands twice.
    DuplicateName(Text),
    NoInput,
    NoOutput,
    /// There are two or more inputs and no order log.
    NoOrderLog,
    NoMemory,
}

impl From<AllocError> for ConfFault {
    ghost from_gives = { λ _ fault. IsMemory fault };

    fn from(_: AllocError) -> Self {
        ConfFault::NoMemory
    }
}
