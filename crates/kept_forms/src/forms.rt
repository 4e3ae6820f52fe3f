// The forms of all sessions.
ghost use Rattle.std.specs.Prelude.{◌≡◌, ◌≤◌, ◌+◌, ℕ, false, nat_eq, None, Some, MatchOption, OnErr, OnOk};
ghost use Rattle.kept_forms.specs.Kept.{kept, number_kept, session_number, template_number, Forgets, Keeps, LetsGo, Spares};

use crate::numbers::{session_number, template_number};
use crate::session::{Form, SessionForms};
use col_base::SessionKey;
use indexmap::IndexMap;
use std::alloc::{AllocError, Global};
use std::sync::Arc;
use template_def::Definition;

/// What was made of the definitions of all sessions.
#[derive(Drop)]
pub struct KeptForms<T> {
    alloc: Global,
    sessions: IndexMap<u64, SessionForms<T>>,
}

impl<T: Drop> KeptForms<T> {
    /// Nothing. It takes no memory.
    pub fn new(alloc: Global) -> KeptForms<T>
        ensures none { (session template : ℕ) → kept result session template ≡ None }
        ensures count { (session : ℕ) → number_kept result session ≡ 0 }
    {
        KeptForms {
            alloc,
            sessions: IndexMap::new(alloc),
        }
    }

    /// What was made of the definition of a Template ID, if it is this definition for which it was made.
    pub fn find(
        &self,
        session: SessionKey,
        domain: u32,
        template: u16,
        definition: &Arc<Definition>,
    ) -> Option<&T>
        ensures { MatchOption result ((made : T) → kept self.now (session_number session) (template_number domain template) ≡ Some (definition.now.value, made) → ⊥)
            (λ made. kept self.now (session_number session) (template_number domain template) ≡ Some (definition.now.value, made.now)) }
    {
        let forms = self.sessions.get(&session_number(session))?;
        forms.find(template_number(domain, template), definition)
    }

    /// Keeps what was made of the definition of a Template ID, in place of what was made of the one before it. Where 1,024
    /// forms of the session are kept, all others of it may be let go; where fewer are, none is.
    pub fn keep(
        &mut self,
        session: SessionKey,
        domain: u32,
        template: u16,
        definition: &Arc<Definition>,
        made: T,
    ) -> Result<(), AllocError>
        ensures ok { OnOk result (Keeps (session_number session) (template_number domain template) definition.now.value made self.old self.new) }
        ensures err { OnErr result (LetsGo (session_number session) self.old self.new) }
        ensures few { Spares (session_number session) (template_number domain template) self.old self.new }
        ensures count { number_kept self.new (session_number session) ≤ number_kept self.old (session_number session) + 1 }
        ensures counts { (other : ℕ) → nat_eq (session_number session) other ≡ false → number_kept self.new other ≡ number_kept self.old other }
    {
        let form = Form {
            definition: definition.clone()?,
            made,
        };
        let number = session_number(session);
        let template = template_number(domain, template);
        if let Some(forms) = self.sessions.get_mut(&number) {
            return forms.keep(template, form);
        }
        let mut forms = SessionForms::new(self.alloc);
        forms.keep(template, form)?;
        self.sessions.insert(number, forms)?;
        Ok(())
    }

    /// Lets go what is kept of a session.
    pub fn close(&mut self, session: SessionKey)
        ensures forgets { Forgets (session_number session) self.old self.new }
        ensures count { number_kept self.new (session_number session) ≡ 0 }
        ensures counts { (other : ℕ) → nat_eq (session_number session) other ≡ false → number_kept self.new other ≡ number_kept self.old other }
    {
        let _forms = self.sessions.swap_remove(&session_number(session));
    }
}
