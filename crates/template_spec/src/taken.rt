// What becomes of one template record.
ghost use Rattle.std.specs.Prelude.{◌≡◌, [], ◌∷◌, ◌++◌, List, ℕ, None, Some, false};
ghost use Rattle.col_base.specs.declared.base.Kind.{Kind};
ghost use Rattle.col_base.specs.declared.base.Lifetimes.{Lifetimes};
ghost use Rattle.col_base.specs.declared.base.Transport.{Transport};
ghost use Rattle.col_base.specs.declared.base.Transport.TheVariants.{File, Tcp, Udp};
ghost use Rattle.wire_spec.specs.Content.{Definition, Touch};
ghost use Rattle.wire_spec.specs.Content.Touch.{Define, Withdraw, WithdrawAll};
ghost use Rattle.template_spec.specs.declared.outcome.Taken.TheVariants.{Ignored, New, Redefined, Same, Withdrawn};
ghost use Rattle.template_spec.specs.Changes.{changes, latest};
ghost use Rattle.template_spec.specs.Late.{is_kept};
ghost use Rattle.template_spec.specs.Taken.{taken};
ghost use Rattle.template_spec.specs.Times.{scoped, single, usual};
ghost use Rattle.template_spec.specs.Valid.{valid};

/// A definition is new exactly where no definition of its ID is valid for its export time, the same where that one is
/// equal to it, and else redefines it.
pub fn a_definition_is_taken_by_the_valid_one()
    ensures new { (transport : Transport) (life : Lifetimes) (past : List (ℕ × Touch)) (time id : ℕ) (definition : Definition) → valid transport life past time id ≡ None
        → taken transport life past (time, Define id definition) ≡ New }
    ensures same { (transport : Transport) (life : Lifetimes) (past : List (ℕ × Touch)) (time id : ℕ) (definition : Definition) → valid transport life past time id ≡ Some definition
        → taken transport life past (time, Define id definition) ≡ Same }
    ensures redefined { (transport : Transport) (life : Lifetimes) (past : List (ℕ × Touch)) (time id : ℕ) (found definition : Definition) → valid transport life past time id ≡ Some found → (found ≡ definition → ⊥)
        → taken transport life past (time, Define id definition) ≡ Redefined }
    ensures new_alone { (transport : Transport) (life : Lifetimes) (past : List (ℕ × Touch)) (time id : ℕ) (definition : Definition) → taken transport life past (time, Define id definition) ≡ New
        → valid transport life past time id ≡ None }
    ensures same_alone { (transport : Transport) (life : Lifetimes) (past : List (ℕ × Touch)) (time id : ℕ) (definition : Definition) → taken transport life past (time, Define id definition) ≡ Same
        → valid transport life past time id ≡ Some definition }
    ensures redefined_alone { (transport : Transport) (life : Lifetimes) (past : List (ℕ × Touch)) (time id : ℕ) (definition : Definition) → taken transport life past (time, Define id definition) ≡ Redefined
        → (found : Definition) × (valid transport life past time id ≡ Some found) × (found ≡ definition → ⊥) }
{}

/// A withdrawal, of one ID or of all of a kind, is ignored over UDP, and nowhere else.
pub fn a_withdrawal_is_taken_by_its_transport()
    ensures over_tcp { (life : Lifetimes) (past : List (ℕ × Touch)) (time id : ℕ) (kind : Kind) → (taken Tcp life past (time, Withdraw id) ≡ Withdrawn) × (taken Tcp life past (time, WithdrawAll kind) ≡ Withdrawn) }
    ensures in_files { (life : Lifetimes) (past : List (ℕ × Touch)) (time id : ℕ) (kind : Kind) → (taken File life past (time, Withdraw id) ≡ Withdrawn) × (taken File life past (time, WithdrawAll kind) ≡ Withdrawn) }
    ensures over_udp { (life : Lifetimes) (past : List (ℕ × Touch)) (time id : ℕ) (kind : Kind) → (taken Udp life past (time, Withdraw id) ≡ Ignored) × (taken Udp life past (time, WithdrawAll kind) ≡ Ignored) }
{}

/// What an ignored withdrawal leaves: over UDP each definition is valid or latest as if it had not come, and each other
/// template record is taken, and changes the table, as without it.
pub fn over_udp_a_withdrawal_changes_nothing()
    ensures itself { (past : List (ℕ × Touch)) (t : ℕ × Touch) → is_kept Udp t.1 ≡ false → changes Udp past t ≡ false }
    ensures stays_valid { (life : Lifetimes) (before after : List (ℕ × Touch)) (t : ℕ × Touch) (time id : ℕ) → is_kept Udp t.1 ≡ false → valid Udp life (before ++ t ∷ after) time id ≡ valid Udp life (before ++ after) time id }
    ensures stays_latest { (before after : List (ℕ × Touch)) (t : ℕ × Touch) (time id : ℕ) → is_kept Udp t.1 ≡ false → latest Udp (before ++ t ∷ after) time id ≡ latest Udp (before ++ after) time id }
    ensures others_taken { (life : Lifetimes) (before after : List (ℕ × Touch)) (t u : ℕ × Touch) → is_kept Udp t.1 ≡ false → taken Udp life (before ++ t ∷ after) u ≡ taken Udp life (before ++ after) u }
    ensures others_change { (before after : List (ℕ × Touch)) (t u : ℕ × Touch) → is_kept Udp t.1 ≡ false → changes Udp (before ++ t ∷ after) u ≡ changes Udp (before ++ after) u }
{}

/// The same definition again is no redefinition, also at one export time. One that no longer lives makes the next one new.
pub fn template_records_are_taken_one_by_one()
    ensures first { taken Udp usual [] (100, Define 256 (single 8)) ≡ New }
    ensures again { taken Udp usual ((100, Define 256 (single 8)) ∷ []) (100, Define 256 (single 8)) ≡ Same }
    ensures other { taken Udp usual ((100, Define 256 (single 8)) ∷ []) (100, Define 256 (single 12)) ≡ Redefined }
    ensures another_id { taken Udp usual ((100, Define 256 (single 8)) ∷ []) (100, Define 257 (single 12)) ≡ New }
    ensures alive { taken Udp usual ((100, Define 256 (single 8)) ∷ []) (1900, Define 256 (single 12)) ≡ Redefined }
    ensures outlived { taken Udp usual ((100, Define 256 (single 8)) ∷ []) (1901, Define 256 (single 12)) ≡ New }
    ensures before_it { taken Udp usual ((100, Define 256 (single 8)) ∷ []) (99, Define 256 (single 12)) ≡ New }
    ensures by_kind { taken Udp (record { template = 10; options = 20; late = 30 }) ((100, Define 256 (scoped 8)) ∷ []) (120, Define 256 (single 12)) ≡ Redefined }
    ensures of_the_other_kind { taken Udp (record { template = 10; options = 20; late = 30 }) ((100, Define 256 (single 8)) ∷ []) (120, Define 256 (scoped 12)) ≡ New }
    ensures withdrawn { taken Tcp usual ((100, Define 256 (single 8)) ∷ (100, Withdraw 256) ∷ []) (100, Define 256 (single 12)) ≡ New }
    ensures not_over_udp { taken Udp usual ((100, Define 256 (single 8)) ∷ (100, Withdraw 256) ∷ []) (100, Define 256 (single 12)) ≡ Redefined }
    ensures older_in_files { taken File usual ((100, Define 256 (single 8)) ∷ []) (99, Define 256 (single 12)) ≡ Redefined }
{}
