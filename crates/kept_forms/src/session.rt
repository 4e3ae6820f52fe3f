// The forms of one session.
ghost use Rattle.std.specs.Prelude.{◌≡◌, ◌≤◌, ◌+◌, ℕ, true, false, Some, None, MatchOption, OnErr, OnOk};
ghost use Rattle.indexmap.specs.IndexMap.{index_map_len};

use indexmap::IndexMap;
use std::alloc::{AllocError, Global};
use std::sync::Arc;
use template_def::Definition;

/// The most forms that are kept of a session.
const MOST_FORMS: usize = 1024;

/// A definition, and what was made of it.
#[derive(Drop)]
pub(crate) struct Form<T> {
    pub definition: Arc<Definition>,
    pub made: T,
}

impl<T> Form<T> {
    /// Whether it is of this definition.
    fn is_of(&self, definition: &Arc<Definition>) -> bool
        ensures same { result ≡ true → self.now.definition.value ≡ definition.now.value }
        ensures other { result ≡ false → self.now.definition.value ≡ definition.now.value → ⊥ }
    {
        **definition == *self.definition
    }
}

/// The forms of a session, by the numbers of its templates. Which of their definitions are still valid is not known here, so
/// there are few: where one more comes than may be kept, all others go, and are made anew as they are asked for.
#[derive(Drop)]
pub(crate) struct SessionForms<T> {
    rows: IndexMap<u64, Form<T>>,
    ghost few: { index_map_len rows ≤ 1024 },
}

impl<T: Drop> SessionForms<T> {
    ghost use Rattle.kept_forms.specs.Kept.{kept_in, made_of, KeepsIn, LetsGoIn, SpareIn};

    /// None. It takes no memory.
    pub fn new(alloc: Global) -> SessionForms<T>
        ensures none { (t : ℕ) → kept_in result t ≡ None }
        ensures count { index_map_len result.rows ≡ 0 }
    {
        SessionForms {
            rows: IndexMap::new(alloc),
        }
    }

    /// What was made of this definition, if it is the one that is kept.
    pub fn find(&self, template: u64, definition: &Arc<Definition>) -> Option<&T>
        ensures { MatchOption result ((made : T) → kept_in self.now template ≡ Some (definition.now.value, made) → ⊥) (λ made. kept_in self.now template ≡ Some (definition.now.value, made.now)) }
    {
        let form = self.rows.get(&template)?;
        if form.is_of(definition) {
            Some(&form.made)
        } else {
            None
        }
    }

    /// Keeps a form, in place of the one before it.
    pub fn keep(&mut self, template: u64, form: Form<T>) -> Result<(), AllocError>
        ensures ok { OnOk result (KeepsIn template (made_of form) self.old self.new) }
        ensures err { OnErr result (LetsGoIn self.old self.new) }
        ensures few { SpareIn template self.old self.new }
        ensures count { index_map_len self.new.rows ≤ index_map_len self.old.rows + 1 }
    {
        if self.rows.len() >= MOST_FORMS {
            self.rows.clear();
        }
        self.rows.insert(template, form)?;
        Ok(())
    }
}
