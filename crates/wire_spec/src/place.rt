// Laws of the places of sets and template records.
ghost use Rattle.std.specs.Prelude.{◌≡◌, ◌+◌, List, ℕ, Some, drop, length, slice_get};
ghost use Rattle.col_base.specs.declared.base.Kind.{Kind};
ghost use Rattle.wire_spec.specs.Rows.{IsRow};
ghost use Rattle.wire_spec.specs.Message.{IsMessage, IsTemplateRecord, IsPadding};
ghost use Rattle.wire_spec.specs.Places.{set_place, record_place, StandsAt};

/// Each set of a message stands at its place: the first behind the header, and each other behind the one before it.
pub fn sets_stand_at_their_places()
    ensures first { (sets : List (List ℕ)) → set_place sets 0 ≡ 16 }
    ensures next { (sets : List (List ℕ)) (n : ℕ) (set : List ℕ) → slice_get sets n ≡ Some set → set_place sets (n + 1) ≡ set_place sets n + length set }
    ensures stand { (octets : List ℕ) (sets : List (List ℕ)) (n : ℕ) (set : List ℕ) → IsMessage octets sets → slice_get sets n ≡ Some set → StandsAt octets (set_place sets n) set }
{}

/// Each template record of a set stands at its place: the first behind the set's header, and each other behind the one
/// before it.
pub fn template_records_stand_at_their_places()
    ensures first { (records : List (List ℕ)) → record_place records 0 ≡ 4 }
    ensures next { (records : List (List ℕ)) (n : ℕ) (item : List ℕ) → slice_get records n ≡ Some item → record_place records (n + 1) ≡ record_place records n + length item }
    ensures stand { (kind : Kind) (set : List ℕ) (records : List (List ℕ)) (n : ℕ) (item : List ℕ) → IsRow (IsTemplateRecord kind) IsPadding (drop 4 set) records
        → slice_get records n ≡ Some item → StandsAt set (record_place records n) item }
{}
