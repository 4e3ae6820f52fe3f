// A definition that is looked up by its value.
ghost use Rattle.std.specs.Prelude.{◌++◌};
ghost use Rattle.std.specs.Hash as fed;
ghost use Rattle.wire_spec.specs.Content as content;
ghost use Rattle.template_spec.specs.Same.{same_definition};
ghost use Rattle.template_spec.proofs.SameLemmas.{same_true};
ghost use Rattle.file_output.specs.Same.{equivalence, partial_equivalence};
ghost use Rattle.std.proofs.Common.{ap};

use std::hash::{Hash, Hasher};
use std::marker::Model;
use std::sync::Arc;
use template_def::Definition;
use wire_spec::FieldSpec;

/// A shared definition. Two are one where their kind, number of scope fields and fields are.
#[derive(Drop)]
pub struct Used {
    pub definition: Arc<Definition>,
}

impl Model for Used {
    ghost Value = { content.Definition };

    ghost view = { λ u. u.definition.value };
}

impl PartialEq for Used {
    ghost eq = { same_definition };

    ghost laws = { partial_equivalence };

    #[tactic(auto, using(crate::specs::Same::tests_agree))]
    fn eq(&self, other: &Used) -> bool {
        *self.definition == *other.definition
    }
}

impl Eq for Used {
    ghost laws = { equivalence };
}

impl Hash for Used {
    ghost hash_input = { λ d. fed.u16 d.scope ++ fed.slice ⟦<FieldSpec as Hash>⟧.hash_input d.fields };

    ghost respects_eq = { λ a b e. ap (λ (d : content.Definition). fed.u16 d.scope ++ fed.slice ⟦<FieldSpec as Hash>⟧.hash_input d.fields) (same_true a b e) };

    fn hash<H: Hasher>(&self, state: &mut H) {
        self.definition.scope().hash(state);
        self.definition.fields().hash(state);
    }
}
