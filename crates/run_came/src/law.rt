// The law of a run over a Site.
ghost use Rattle.std.specs.Prelude.{◌≡◌, ℕ, List, Option, length};
ghost use Rattle.arrival_spec.specs.declared.event.Scripted.{Scripted};
ghost use Rattle.config_spec.specs.declared.conf.Conf.{Conf};
ghost use Rattle.text_spec.specs.declared.element.Element.{Element};
ghost use Rattle.site_io.specs.Seen.{Seen};
ghost use Rattle.call_spec.specs.Came.{RunCame};
ghost use Rattle.call_spec.specs.Came.Came.{Ran};
ghost use Rattle.call_spec.specs.Leaves.{sink_names};
ghost use Rattle.call_spec.specs.Lines.{lines_of};
ghost use Rattle.call_spec.specs.Plan.{described_parties};
ghost use Rattle.call_spec.specs.Plan.Plan.{Described};
ghost use Rattle.call_spec.specs.Status.{run_code};
ghost use Rattle.logged_outputs.specs.declared.logged.LoggedOutputs.{LoggedOutputs};
ghost use Rattle.run_input.specs.declared.input.Input.{Input};
ghost use Rattle.run_lines.specs.declared.ended.Ended.{Ended};
ghost use Rattle.run_lines.specs.Ended.{ended_code, run_text};
ghost use Rattle.site_openings.specs.Out.{AreDistinct};
ghost use Rattle.run_came.specs.Ran.{RanOver};
ghost use Rattle.run_came.specs.Told.{CameToRun, IsNoted, TellsRun};

use message_texts::MessageTexts;

/// A run of a description, for each of whose outputs there is a maker of texts, came to what a call promises of a run, and
/// what is told of it is what was noted.
pub fn what_ran_over_a_site_came_to_it<S, T: MessageTexts, K>()
    ensures { (left : S → Option (List Scripted)) (faults : S → ℕ) (held : K → Option (List ℕ)) (total : K → Option ℕ) (sink_faults : K → ℕ)
        (conf : Conf) (texts : List T) (xs : List (Input S)) (taker : LoggedOutputs T K) (ended : Ended) (old new : Seen) → length texts ≡ length conf.outputs → AreDistinct (sink_names (described_parties conf))
        → RanOver left faults T.stands held total sink_faults conf texts xs taker old new → IsNoted (length conf.stages) xs taker ended → CameToRun left faults T.stands conf texts ended old new }
{}

/// The lines and the status of how a run ended are those of the run that is told of.
pub fn what_is_told_of_a_run_is_said()
    ensures lines { (conf : Conf) (rows : List Element) (run : RunCame) (ended : Ended) → TellsRun conf run ended → run_text conf ended ≡ lines_of (Described conf rows) (Ran run) }
    ensures status { (conf : Conf) (run : RunCame) (ended : Ended) → TellsRun conf run ended → ended_code ended ≡ run_code run }
{}
