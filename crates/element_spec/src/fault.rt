// What is wrong with an element table.
ghost use Rattle.element_spec.specs.Faults.{IsMemory};

use std::alloc::AllocError;

/// The first fault of an element table. Rows are counted from 0.
#[derive(Debug, PartialEq, Eq, Drop)]
pub enum TableFault {
    NotToml,
    /// The row lacks a key, or one is unknown, of the wrong type or out of range. It is row 0 also where
    /// the document itself has another form.
    BadRow(usize),
    /// The row's type is no type's name.
    BadType(usize),
    /// A row before has the enterprise number and the ID.
    Duplicate(u32, u16),
    /// A row before has the prefix and the name.
    DuplicateName(usize),
    NoMemory,
}

impl From<AllocError> for TableFault {
    ghost from_gives = { λ _ fault. IsMemory fault };

    fn from(_: AllocError) -> Self {
        TableFault::NoMemory
    }
}
