// Laws of the entries of inputs.
ghost use Rattle.std.specs.Prelude.{◌≡◌, ◌++◌, ◌∷◌, [], ℕ, List, Option, false, true, is_some, map};
ghost use Rattle.std.specs.List.{list_all, list_any};
ghost use Rattle.arrival_spec.specs.declared.event.Scripted.{Scripted};
ghost use Rattle.config_spec.specs.declared.conf.Conf.{Conf};
ghost use Rattle.run_spec.specs.Judge.{Inputs};
ghost use Rattle.run_spec.specs.Merge.{IsPartial};
ghost use Rattle.count_spec.specs.Counts.{Counts};
ghost use Rattle.count_spec.specs.Run.{AreCounts};
ghost use Rattle.result_spec.specs.Result.{ComeTo, inputs_of};
ghost use Rattle.result_spec.specs.Through.{through};
ghost use Rattle.call_spec.specs.Came.{InputCame, RunCame};
ghost use Rattle.call_spec.specs.Ends.{EndsInput, wants_memory};
ghost use Rattle.call_spec.specs.Leaves.{IsOrder, arrivals_in, given_of};
ghost use Rattle.call_spec.specs.Pairs.{Each};
ghost use Rattle.pipeline_message.specs.declared.run_counts.RunCounts.{RunCounts};
ghost use Rattle.pipeline_message.specs.Shown.{shown_counts};
ghost use Rattle.logged_outputs.specs.Entries.{Entry, items_in, order_of};
ghost use Rattle.run_input.specs.declared.input.Input.{Input};
ghost use Rattle.run_input.specs.Inputs.{CountsAll, HasGiven};
ghost use Rattle.input_turns.specs.Turns.{SoFar};
ghost use Rattle.run_entries.specs.Came.{AreEntriesOf, InputCameTo};
ghost use Rattle.run_entries.specs.Totals.{sums};

/// Inputs that gave nothing yet have no entries. Inputs that have ended have entries: something came of each, as a call
/// promises it, since its source was so.
pub fn inputs_have_entries<S>()
    ensures begin { (left : S → Option (List Scripted)) (faults : S → ℕ) (all : Inputs) (firsts : List S) (xs : List (Input S)) → Each (λ k first x. HasGiven left faults first (all k) k [] [] x) 0 firsts xs → SoFar left faults all [] firsts xs }
    ensures came { (left : S → Option (List Scripted)) (faults : S → ℕ) (conf : Conf) (entries : List Entry) (firsts : List S) (xs : List (Input S)) → SoFar left faults (inputs_of conf) entries firsts xs → list_all (λ (x : Input S). is_some x.end) xs ≡ true
        → (pairs : List (S × InputCame)) × (map (λ (p : S × InputCame). p.0) pairs ≡ firsts) × ((run : RunCame) → run.inputs ≡ map (λ (p : S × InputCame). p.1) pairs → AreEntriesOf left faults conf run entries xs) }
    ensures end { (left : S → Option (List Scripted)) (faults : S → ℕ) (all : Inputs) (entries : List Entry) (k : ℕ) (pair : S × InputCame) (x : Input S) → InputCameTo left faults all entries k pair x → is_some x.end ≡ true → faults pair.0 ≡ 0
        → EndsInput (all k).stop_after (left pair.0) (left x.inlet.source) pair.1.given pair.1.end pair.1.failed }
{}

/// The first entries of inputs that have ended are an order of their arrivals, with the next entry too; and their items are
/// what comes to each output of the arrivals in this order. Where these are all entries, the order takes all arrivals of
/// each input that did not want memory.
pub fn entries_are_arrivals_in_an_order<S>()
    ensures order { (left : S → Option (List Scripted)) (faults : S → ℕ) (conf : Conf) (run : RunCame) (front rest : List Entry) (xs : List (Input S)) → AreEntriesOf left faults conf run (front ++ rest) xs
        → run.order ≡ order_of front → (is_some run.log ≡ false → rest ≡ []) → IsOrder run (arrivals_in conf run) }
    ensures next { (left : S → Option (List Scripted)) (faults : S → ℕ) (conf : Conf) (run : RunCame) (front more : List Entry) (x : Entry) (xs : List (Input S)) → AreEntriesOf left faults conf run (front ++ x ∷ more) xs
        → IsPartial (order_of front ++ x.input ∷ []) (arrivals_in conf run) }
    ensures come { (left : S → Option (List Scripted)) (faults : S → ℕ) (conf : Conf) (run : RunCame) (front rest : List Entry) (xs : List (Input S)) → AreEntriesOf left faults conf run (front ++ rest) xs
        → (j : ℕ) → ComeTo conf (given_of run) (order_of front) j (through conf j (items_in front)) }
{}

/// The counts of inputs that have ended, added up, are those of the run, unless one wanted memory.
pub fn counts_of_inputs_are_those_of_the_run<S>()
    ensures { (left : S → Option (List Scripted)) (faults : S → ℕ) (conf : Conf) (run : RunCame) (entries : List Entry) (xs : List (Input S)) (cs : List RunCounts) → AreEntriesOf left faults conf run entries xs
        → list_any (λ (c : InputCame). wants_memory c.end) run.inputs ≡ false → Each (λ _ (x : Input S) c. CountsAll x c) 0 xs cs → (c : Counts) × AreCounts (inputs_of conf) (given_of run) c × (sums cs ≡ shown_counts c) }
{}
