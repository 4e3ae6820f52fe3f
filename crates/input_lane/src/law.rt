// Laws of inputs.
ghost use Rattle.std.specs.Prelude.{List, ℕ};
ghost use Rattle.arrival_spec.specs.declared.event.Scripted.{Scripted};
ghost use Rattle.arrival_spec.specs.Arrival.{Arrival};
ghost use Rattle.arrival_spec.specs.Settings.{Settings};
ghost use Rattle.arrival_spec.specs.Run.{marks_of};
ghost use Rattle.input_lane.specs.declared.state.Lane.{Lane};
ghost use Rattle.input_lane.specs.Inlets.{IsOver};
ghost use Rattle.input_lane.specs.Tallies.{CountsMarks};

/// Once reading is over, the counts of an input are those that a run has of its events, where each stands at 2^64 - 1.
pub fn an_input_counts_its_events()
    ensures { (settings : Settings) (input : ℕ) (taken : List Scripted) (out : List (Arrival (List ℕ))) (x : Lane) → IsOver settings input taken out x → CountsMarks (marks_of settings input taken) x.state.tally }
{}
