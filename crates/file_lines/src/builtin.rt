// The elements by which lines are made.
ghost use Rattle.std.specs.Prelude.{◌≡◌};
ghost use Rattle.text_spec.specs.Builtin.{builtin_rows};

use element_table::Elements;
use std::alloc::{AllocError, Global};

/// The built-in elements.
#[derive(Drop)]
pub struct BuiltinElements {
    pub table: Elements,
    ghost are: { table ≡ builtin_rows },
}

impl BuiltinElements {
    pub fn new(alloc: Global) -> Result<BuiltinElements, AllocError> {
        match Elements::builtin(alloc) {
            Ok(table) => Ok(BuiltinElements { table }),
            Err(_) => Err(AllocError),
        }
    }
}
