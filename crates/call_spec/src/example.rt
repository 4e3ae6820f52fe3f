// How examples of runs end.
ghost use Rattle.std.specs.Prelude.{◌≡◌, ℕ, ⊤, List, [], ◌∷◌, ◌++◌, Option, Some, None, Ok, Err, true, false, codes};
ghost use Rattle.arrival_spec.specs.declared.event.Scripted.{Scripted};
ghost use Rattle.site_io.specs.declared.outside.OutsideFault.TheVariants as fault;
ghost use Rattle.call_spec.specs.declared.end.InputEnd.TheVariants as end;
ghost use Rattle.call_spec.specs.declared.end.OutputFault.TheVariants as output;
ghost use Rattle.call_spec.specs.Came.Came.{Refused, Ran};
ghost use Rattle.call_spec.specs.Came.Refusal.{NoSource};
ghost use Rattle.call_spec.specs.Ends.{EndsInput, EndsOutput, HoldsBy};
ghost use Rattle.call_spec.specs.Lines.{fault_lines};
ghost use Rattle.call_spec.specs.Log.{HoldsLog, log_text};
ghost use Rattle.call_spec.specs.Status.{status_of};
ghost use Rattle.call_spec.specs.Summary.{summary_text};
ghost use Rattle.call_spec.specs.Examples.{came_to, one_to_fifteen, run_with, two_parties};

/// Each entry of the order log is two octets, the high one first.
pub fn a_log_has_an_entry_for_each_arrival()
    ensures { log_text (0 ∷ 1 ∷ 258 ∷ []) ≡ 0 ∷ 0 ∷ 0 ∷ 1 ∷ 1 ∷ 2 ∷ [] }
{}

/// A log that holds one entry goes with no run that worked off two arrivals, whether it ended or not; nor does one that
/// holds three. So no arrival has its text before its entry, and nothing else is logged.
pub fn no_text_is_written_before_its_entry()
    ensures fewer { (lists : List (List ℕ)) → HoldsLog (Some fault.Failed) lists (Some []) (Some (0 ∷ 0 ∷ [])) (0 ∷ 1 ∷ []) → ⊥ }
    ensures fewer_whole { (lists : List (List ℕ)) → HoldsLog None lists (Some []) (Some (0 ∷ 0 ∷ [])) (0 ∷ 1 ∷ []) → ⊥ }
    ensures more_whole { (lists : List (List ℕ)) → HoldsLog None lists (Some []) (Some (0 ∷ 0 ∷ 0 ∷ 1 ∷ 0 ∷ 0 ∷ [])) (0 ∷ 1 ∷ []) → ⊥ }
{}

/// An input without a limit ends with nothing left, whatever became of the log and of the sinks.
pub fn an_input_ends_with_nothing_left()
    ensures { (old now given : List Scripted) → EndsInput 0 (Some old) (Some now) given end.End false → now ≡ [] }
{}

/// An output at its limit holds its text of what came before, and nothing else; one that has not ended did not exceed it.
pub fn an_output_ends_at_its_limit()
    ensures holds { (now : List ℕ) → HoldsBy false (Some output.Limit) (Some []) (Some now) (10 ∷ 20 ∷ []) (10 ∷ []) → now ≡ 10 ∷ [] }
    ensures goes_on { EndsOutput false None ⊤ → ⊥ }
    ensures caused { EndsOutput false (Some output.Limit) ⊥ → ⊥ }
    ensures whole { (now : List ℕ) → HoldsBy false None (Some []) (Some now) (10 ∷ 20 ∷ []) (10 ∷ []) → now ≡ 10 ∷ 20 ∷ [] }
{}

/// Of several statuses the greatest is answered; a line that can't be said gives 4 behind a run, and changes no status of a
/// call that was refused before one.
pub fn the_greatest_status_is_answered()
    ensures none { status_of (Ran (run_with (came_to end.End false ∷ []) None [] (None ∷ []))) (Ok tt) ≡ 0 }
    ensures source { status_of (Ran (run_with (came_to end.Failed true ∷ came_to end.End false ∷ []) None [] (None ∷ []))) (Ok tt) ≡ 3 }
    ensures source_and_sink { status_of (Ran (run_with (came_to end.Failed true ∷ []) None [] (Some output.Failed ∷ []))) (Ok tt) ≡ 4 }
    ensures limit { status_of (Ran (run_with (came_to end.Failed true ∷ []) (Some fault.Failed) [] (None ∷ Some output.Limit ∷ []))) (Ok tt) ≡ 5 }
    ensures log { status_of (Ran (run_with (came_to end.Failed true ∷ []) (Some fault.Failed) [] (None ∷ []))) (Ok tt) ≡ 4 }
    ensures memory { status_of (Ran (run_with (came_to end.Failed true ∷ []) (Some fault.Failed) (true ∷ []) (None ∷ []))) (Ok tt) ≡ 6 }
    ensures unsaid { status_of (Ran (run_with (came_to end.Failed true ∷ []) None [] (None ∷ []))) (Err fault.Failed) ≡ 4 }
    ensures refused { status_of (Refused (NoSource 1) 2 0) (Err fault.Failed) ≡ 3 }
{}

/// The lines of faults come in the order inputs, log, intermediates, outputs.
#[tactic(auto, using(crate::proofs::KnownTexts::lines_in_order))]
pub fn faults_have_their_lines_in_order()
    ensures { fault_lines two_parties (run_with (came_to end.Failed true ∷ came_to end.Memory true ∷ []) (Some fault.Failed) (true ∷ []) (Some output.Failed ∷ Some output.Limit ∷ []))
        ≡ codes "source fault: a\nmemory: b\nsink fault: order-log\nmemory: f\nsink fault: o\nlimit: p\n" }
{}

/// The summary of a run, no two of whose counts are the same.
#[tactic(auto, using(crate::proofs::KnownTexts::known_summary))]
pub fn summaries_have_seventeen_lines()
    ensures { summary_text one_to_fifteen
        ≡ codes "sessions 1\nmessages 2\nrecords 3\nmalformed 4\nlate 5\nskipped 6\nignored 7\nredefined 8\nlost 9\ndisordered 10\ntorn 11\nbroken 12\nrefused 13\ncrowded 14\nstray 15\nopened 0\nreleased 0\n" }
{}
