// When versions are due to be forgotten.
ghost use Rattle.std.specs.Prelude.{◌≡◌, ◌<◌, ◌≤◌, ℕ, true, false, OnOk, OnErr, MatchOption};
ghost use Rattle.template_history.specs.Due.{is_due, due_count};

use col_base::WantOfMemory;
use std::alloc::{AllocFailed, Global};
use std::collections::BTreeSet;

/// Export times with IDs, in order: from such a time on the ID has a version to forget. A pair that is there for
/// nothing does no harm.
#[derive(Drop)]
pub struct Due {
    pairs: BTreeSet<(u32, u16)>,
}

impl Due {
    pub fn new(alloc: Global) -> Self
        ensures { (t id : ℕ) → is_due result t id ≡ false }
    {
        Due {
            pairs: BTreeSet::new(alloc),
        }
    }

    /// Enters a pair. Where memory is wanted nothing changes.
    pub fn enter(&mut self, t: u32, id: u16) -> Result<(), WantOfMemory>
        ensures entered { OnOk result (is_due self.new t id ≡ true) }
        ensures kept { (u k : ℕ) → is_due self.old u k ≡ true → is_due self.new u k ≡ true }
    {
        self.pairs.insert((t, id))?;
        Ok(())
    }

    /// Takes out the first pair of an export time up to this one, and answers its ID. None where there is none left.
    pub fn next(&mut self, before: u32) -> Option<u16>
        ensures next { MatchOption result ((u k : ℕ) → is_due self.old u k ≡ true → before < u)
            (λ id. (u k : ℕ) → is_due self.old u k ≡ true → (u ≤ before → k ≡ id → ⊥) → is_due self.new u k ≡ true) }
        ensures none { MatchOption result (self.new ≡ self.old) (λ id. due_count self.new < due_count self.old) }
    {
        match self.pairs.first() {
            Some((t, _)) => {
                if *t > before {
                    return None;
                }
            }
            None => return None,
        }
        match self.pairs.pop_first() {
            Some((_, id)) => Some(id),
            None => None,
        }
    }
}
