// A definition with what was prepared of it.
ghost use Rattle.std.specs.Prelude.{◌≡◌, true};
ghost use Rattle.text_spec.specs.Builtin.{builtin_rows};
ghost use Rattle.json_output.specs.Suits.{Suits};

use element_table::Elements;
use json_output::{Lines, Prepared, put_records};
use std::alloc::{AllocError, Global};
use template_def::Definition;

/// A definition, and the lines of its records.
#[derive(Drop)]
pub struct Kept {
    def: Definition,
    prepared: Prepared,
    ghost suits: { Suits true builtin_rows def prepared },
}

impl Kept {
    /// Prepares a definition.
    pub fn new(alloc: Global, elements: &Elements, def: Definition) -> Result<Kept, AllocError>
        requires { elements.now ≡ builtin_rows }
    {
        let prepared = Prepared::new(alloc, true, elements, &def)?;
        Ok(Kept { def, prepared })
    }

    /// Puts the lines of a body.
    pub fn put_lines(&self, body: &[u8], lines: &mut Lines) -> Result<(), AllocError> {
        put_records(&self.def, &self.prepared, body, lines)
    }
}
