// Equality of definitions: that of kind, number of scope fields, and fields.
ghost use Rattle.std.specs.Prelude.{◌≡◌, ◌↔◌, IsTrue};
ghost use Rattle.wire_spec.specs.Content as content;
ghost use Rattle.template_def.specs.Same.{same_definition, equivalence, partial_equivalence};

use crate::definition::Definition;

impl PartialEq for Definition {
    ghost eq = { same_definition };

    ghost laws = { partial_equivalence };

    fn eq(&self, other: &Definition) -> bool {
        self.kind() == other.kind()
            && self.scope() == other.scope()
            && self.fields() == other.fields()
    }
}

impl Eq for Definition {
    ghost laws = { equivalence };
}

/// `==` is true exactly of equal definitions.
pub fn equal_definitions_are_one()
    ensures { (a b : content.Definition) → IsTrue (same_definition a b) ↔ (a ≡ b) }
{}
