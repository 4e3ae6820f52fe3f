// What the definitions say of a message behind all intermediates.
ghost use Rattle.std.specs.Prelude.{◌≡◌, ◌∷◌, [], ℕ, List, map, true};
ghost use Rattle.std.specs.List.{AllByRecursion};
ghost use Rattle.col_base.specs.declared.base.SessionKey.{SessionKey};
ghost use Rattle.config_spec.specs.declared.conf.StageConf.{StageConf};
ghost use Rattle.file_spec.specs.File.{has_records};
ghost use Rattle.run_spec.specs.Outcome.{DecodedSet};
ghost use Rattle.run_spec.specs.Work.Item.{Data};
ghost use Rattle.result_spec.specs.Through.{items_through};
ghost use Rattle.stage_chain.specs.Behind.{sets_behind, works_of};

/// A message whose sets have records goes through the intermediates set by set, and those of which nothing is left go.
pub fn a_message_goes_set_by_set()
    ensures { (stages : List StageConf) (key : SessionKey) (domain export sequence : ℕ) (sets : List DecodedSet) → AllByRecursion (λ d. has_records d ≡ true) sets
        → items_through stages (Data key domain export sequence sets ∷ []) ≡ Data key domain export sequence (sets_behind (works_of stages) sets) ∷ [] }
{}
