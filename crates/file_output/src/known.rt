// The definitions of a domain that have numbers.
ghost use Rattle.std.specs.Prelude.{◌≡◌, ◌≤◌, ◌<◌, ◌+◌, [], take, drop, length, max, true, IfOk, IfErr, OnOk, OnErr, ℕ};
ghost use Rattle.std.specs.List.{All, list_any};
ghost use Rattle.template_spec.specs.Same.{same_definition};
ghost use Rattle.file_output.specs.Fault.{AtLimit};
ghost use Rattle.file_spec.specs.File.{place_of, with_definition};

use crate::fault::FileFault;
use crate::used::Used;
use indexmap::IndexSet;
use std::alloc::{AllocError, Global};
use std::marker::Model;
use std::sync::Arc;
use template_def::Definition;
use wire_spec::numbers::LEAST_TEMPLATE_ID;

/// Definitions in order of first use. A definition is found in constant time.
#[derive(Drop)]
pub struct Known {
    definitions: IndexSet<Used>,
}

impl Model for Known {
    ghost use Rattle.std.specs.Prelude.{List};
    ghost use Rattle.wire_spec.specs.Content.{Definition};

    ghost Value = { List Definition };

    ghost view = { λ k. k.definitions.keys };
}

/// What follows the first ones.
fn after(used: &[Used], first: usize) -> &[Used]
    requires { first ≤ length used.now }
    ensures { result.now ≡ drop first used.now }
{
    &used[first..]
}

impl Known {
    /// No definition. It takes no memory.
    pub fn new(alloc: Global) -> Self
        ensures { result ≡ [] }
    {
        Known {
            definitions: IndexSet::new(alloc),
        }
    }

    pub fn len(&self) -> usize
        ensures { result ≡ length self.now }
    {
        self.definitions.len()
    }

    /// The number of a definition that is known.
    #[tactic(auto, using(crate::proofs::PlaceLemmas::place_found))]
    pub fn number(&self, definition: &Arc<Definition>) -> Result<u16, AllocError>
        requires known { list_any (same_definition definition.now.value) self.now ≡ true }
        requires few { 255 + length self.now ≤ 65535 }
        ensures { IfOk result (λ n. n ≡ 255 + place_of definition.now.value self.now) }
    {
        let used = Used {
            definition: definition.clone()?,
        };
        let index = self.definitions.get_index_of(&used).unwrap();
        Ok(LEAST_TEMPLATE_ID + index as u16)
    }

    /// Gives a definition the next number, unless it has one. Refused where that number were above the last one that is
    /// allowed, or where memory is wanted: then nothing changes.
    #[tactic(auto, using(crate::proofs::PlaceLemmas::entered_last, crate::proofs::PlaceLemmas::entered_before, crate::proofs::PlaceLemmas::place_entered))]
    pub fn enter(&mut self, definition: &Arc<Definition>, last: u16) -> Result<(), FileFault>
        requires { 255 + length self.old ≤ max 255 last }
        ensures ok { OnOk result (self.new ≡ with_definition self.old definition.now.value) }
        ensures room { OnOk result (255 + length self.new ≤ max 255 last) }
        ensures limit { IfErr result (AtLimit (λ n. (n ≡ 255 + place_of definition.now.value (with_definition self.old definition.now.value)) × (last < n))) }
        ensures err { OnErr result (self.new ≡ self.old) }
    {
        let used = Used {
            definition: definition.clone()?,
        };
        if self.definitions.contains(&used) {
            return Ok(());
        }
        let number = u64::from(LEAST_TEMPLATE_ID) + self.definitions.len() as u64;
        if number > u64::from(last) {
            return Err(FileFault::Limit(number));
        }
        self.definitions.insert(used)?;
        Ok(())
    }

    /// Keeps the first definitions, as many as `len` says.
    pub fn truncate(&mut self, len: usize)
        ensures { self.new ≡ take len self.old }
    {
        self.definitions.truncate(len);
    }

    /// The definitions behind the first ones.
    #[tactic(auto, using(crate::proofs::PlaceLemmas::own_known))]
    pub fn behind(&self, first: usize) -> &[Used]
        requires { first ≤ length self.now }
        ensures are { result.now ≡ drop first self.now }
        ensures known { All (λ d. list_any (same_definition d) self.now ≡ true) result.now }
    {
        after(self.definitions.as_slice(), first)
    }
}
