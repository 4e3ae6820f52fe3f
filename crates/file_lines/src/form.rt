// The prepared lines of definitions, kept beside them.
ghost use Rattle.std.specs.Prelude.{◌≡◌, ◌++◌, List, ℕ, true, OnOk, IfOk};
ghost use Rattle.text_spec.specs.Builtin.{builtin_rows};
ghost use Rattle.run_spec.specs.Outcome.{Outcome, decoded_in};
ghost use Rattle.run_spec.specs.Meaning.{IsOutcomeBy};
ghost use Rattle.run_spec.specs.Result.{sets_text};
ghost use Rattle.json_output.specs.Suits.{Suits};

use crate::builtin::BuiltinElements;
use element_table::Elements;
use json_output::{Lines, Prepared, put_records};
use std::alloc::{AllocError, Global};
use std::collections::BTreeMap;
use std::sync::Arc;
use template_def::Definition;

/// The most forms that are kept of a session.
const MOST_FORMS: usize = 1024;

/// A definition, and the prepared lines of its records.
#[derive(Drop)]
struct Form {
    definition: Arc<Definition>,
    prepared: Prepared,
    ghost suits: { Suits true builtin_rows definition.value prepared },
}

impl Form {
    /// Prepares the lines of a definition's records.
    fn new(
        alloc: Global,
        elements: &Elements,
        definition: &Arc<Definition>,
    ) -> Result<Form, AllocError>
        requires { elements.now ≡ builtin_rows }
        ensures { IfOk result (λ form. form.definition.value ≡ definition.now.value) }
    {
        let prepared = Prepared::new(alloc, true, elements, definition)?;
        Ok(Form {
            definition: definition.clone()?,
            prepared,
        })
    }

    /// Whether it is of this definition.
    fn is_of(&self, definition: &Arc<Definition>) -> bool
        ensures { result ≡ true → self.now.definition.value ≡ definition.now.value }
    {
        **definition == *self.definition
    }

    /// Appends the lines of a body's records, and nothing where the body isn't records.
    fn put(&self, body: &[u8], lines: &mut Lines) -> Result<(), AllocError>
        ensures { OnOk result ((id : ℕ) (o : Outcome) → IsOutcomeBy self.now.definition.value id body.now o
            → lines.new ≡ lines.old ++ sets_text true builtin_rows (decoded_in o)) }
    {
        put_records(&self.definition, &self.prepared, body, lines)
    }
}

/// The forms of the definitions of a session whose records came. A form is found by the domain and the Template ID of a
/// set, and made anew where the definition is another one: so it is prepared once a definition, and looked up once a set.
/// A template that is withdrawn isn't told here, so there are few: where one more comes than may be kept, all others go.
#[derive(Drop)]
pub struct Forms {
    rows: BTreeMap<u64, Form>,
}

impl Forms {
    /// No form. It takes no memory.
    pub fn new(alloc: Global) -> Forms {
        Forms {
            rows: BTreeMap::new(alloc),
        }
    }

    /// Appends the lines of a body's records, and nothing where the body isn't records.
    pub fn put(
        &mut self,
        alloc: Global,
        elements: &BuiltinElements,
        domain: u32,
        id: u16,
        definition: &Arc<Definition>,
        body: &[u8],
        lines: &mut Lines,
    ) -> Result<(), AllocError>
        ensures { OnOk result ((o : Outcome) → IsOutcomeBy definition.now.value id body.now o
            → lines.new ≡ lines.old ++ sets_text true builtin_rows (decoded_in o)) }
    {
        let key = u64::from(domain) << 16 | u64::from(id);
        if let Some(form) = self.rows.get(&key) {
            if form.is_of(definition) {
                return form.put(body, lines);
            }
        }
        let form = Form::new(alloc, &elements.table, definition)?;
        form.put(body, lines)?;
        if self.rows.len() >= MOST_FORMS {
            self.rows.clear();
        }
        self.rows.insert(key, form)?;
        Ok(())
    }
}
