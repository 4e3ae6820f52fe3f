// Which faults can give a status, and which status comes where there is none.
ghost use Rattle.std.specs.Prelude.{◌≡◌, ◌⊎◌, ℕ, List, Option};
ghost use Rattle.arrival_spec.specs.declared.event.Scripted.{Scripted};
ghost use Rattle.site_io.specs.Outside.{Rose};
ghost use Rattle.site_io.specs.Seen.{Seen};
ghost use Rattle.words_spec.specs.Commands.Command.{Generate};
ghost use Rattle.call_spec.specs.Call.{Calls, Collects};
ghost use Rattle.call_spec.specs.Causes.{IsAccepted, IsCalm, RunsOutOfIds};

/// The run of a description ends with 3 only where the count of faults of a text or of a place rose, and with 4 only where
/// that of a sink name did, or that of what is said.
pub fn a_status_has_its_cause<S>()
    ensures source { (left : S → Option (List Scripted)) (faults : S → ℕ) (file : List ℕ) (old new : Seen) → Collects left faults file old new 3
        → ((p : List ℕ) × Rose (old.text p).faults (new.text p).faults) ⊎ ((p : List ℕ) × Rose (old.place p).faults (new.place p).faults) }
    ensures sink { (left : S → Option (List Scripted)) (faults : S → ℕ) (file : List ℕ) (old new : Seen) → Collects left faults file old new 4
        → ((p : List ℕ) × Rose (old.sink p).faults (new.sink p).faults) ⊎ Rose old.say.faults new.say.faults }
{}

/// The run of a description ends with 5 only where an output of IPFIX Files had more definitions to number than it has
/// Template IDs. Where no count of faults rose, neither the description nor a table has a fault, and no output needs more
/// Template IDs, nothing but 0 is answered, unless memory was wanted.
pub fn a_run_without_a_cause_is_done<S>()
    ensures limit { (left : S → Option (List Scripted)) (faults : S → ℕ) (file : List ℕ) (old new : Seen) → Collects left faults file old new 5 → RunsOutOfIds left faults file old new }
    ensures complete { (left : S → Option (List Scripted)) (faults : S → ℕ) (file : List ℕ) (old new : Seen) (status : ℕ) → Collects left faults file old new status → IsCalm old new → IsAccepted old.text file
        → (status ≡ 0) ⊎ ((status ≡ 6) ⊎ RunsOutOfIds left faults file old new) }
{}

/// Generated load ends with 0, or with 4 where saying failed, unless memory was wanted or its file needs more Template IDs
/// than there are.
pub fn generated_load_has_no_other_fault<S>()
    ensures { (left : S → Option (List Scripted)) (faults : S → ℕ) (number count : ℕ) (old new : Seen) (status : ℕ) → Calls left faults (Generate number count) old new status
        → (status ≡ 0) ⊎ ((status ≡ 4) × Rose old.say.faults new.say.faults ⊎ ((status ≡ 5) ⊎ (status ≡ 6))) }
{}
