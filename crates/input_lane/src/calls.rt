// The calls of an input.
ghost use Rattle.std.specs.Prelude.{◌≡◌, ◌≤◌, [], length, ℕ, List, IfOk, IfErr};
ghost use Rattle.arrival_spec.specs.declared.event.Scripted.{Scripted};
ghost use Rattle.arrival_spec.specs.Settings.{Settings};
ghost use Rattle.arrival_spec.specs.Arrival.{Arrival};
ghost use Rattle.input_lane.specs.Inlets.{Answers, Asked, Asks, Causes, HandsOut, IsIdle, IsQuestion, Lessens, Stands, Stops, and_given, fault_of, is_end};
ghost use Rattle.input_lane.specs.Kept.{settings_of};
ghost use Rattle.input_lane.specs.Tallies.{counts_of};
ghost use Rattle.input_lane.specs.declared.state.Reading.TheVariants as reading;

use crate::came::InletAnswer;
use crate::inlet::Inlet;
use crate::lane::kind;
use crate::links::Links;
use crate::state::{Kind, Lane, Reading, State};
use crate::tally::{Tally, counts};
use col_base::WantOfMemory;
use config_spec::InputConf;
use pipeline_message::{LaneFault, RunCounts};
use session_table::Sessions;
use site_io::{OutsideFault, Source};
use std::alloc::Global;
use std::collections::VecDeque;

/// The most octets that an event has.
const MOST_OCTETS: usize = 65_535;

/// Room for the octets of an event.
fn room(alloc: Global) -> Result<Vec<u8>, WantOfMemory>
    ensures { IfOk result (λ room. 65535 ≤ length room.items) }
{
    let octets = vec![in alloc; 0u8; MOST_OCTETS]?;
    Ok(octets)
}

/// An input that gave nothing yet.
fn lane(alloc: Global, conf: &InputConf, input: u16) -> Lane
    ensures idle { IsIdle result }
    ensures stands { Stands (settings_of conf.now) input [] [] result }
{
    Lane {
        state: State {
            input,
            transport: conf.spec.transport,
            seconds: 0,
            sessions: Sessions::new(alloc, input, conf.idle),
            links: Links::new(alloc),
            hand: VecDeque::new(alloc),
            tally: Tally {
                sessions: 0,
                torn: 0,
                broken: 0,
                refused: 0,
                stray: 0,
            },
        },
        reading: Reading::Open,
        stop_after: conf.stop_after,
        taken: 0,
    }
}

impl<S: Source> Inlet<S> {
    /// The input of this number over a source, as the description sets it. Where memory is wanted the source is given back.
    pub fn new(
        alloc: Global,
        conf: &InputConf,
        input: u16,
        source: S,
    ) -> Result<Self, (WantOfMemory, S)>
        ensures source { IfOk result (λ inlet. inlet.source ≡ source) }
        ensures reading { IfOk result (λ inlet. inlet.lane.reading ≡ reading.Open) }
        ensures idle { IfOk result (λ inlet. IsIdle inlet.lane) }
        ensures stands { IfOk result (λ inlet. Stands (settings_of conf.now) input [] [] inlet.lane) }
        ensures refused { IfErr result (λ refused. refused.1 ≡ source) }
    {
        match room(alloc) {
            Err(fault) => Err((fault, source)),
            Ok(room) => Ok(Inlet {
                source,
                room,
                lane: lane(alloc, conf, input),
            }),
        }
    }

    /// Whether reading is over: its source came to the end or failed, or it took as many events as it may. What is given from
    /// then on is what waits, the closings of the open sessions, and the end.
    pub fn is_over(&self) -> bool
        ensures { result ≡ is_end self.now.lane.reading }
    {
        match self.lane.reading {
            Reading::Open => false,
            Reading::Ended => true,
            Reading::Failed => true,
            Reading::Wanting => false,
        }
    }

    /// How it broke: `Source` where its source failed, `NoMemory` where memory was wanted, and else `Nothing`.
    pub fn fault(&self) -> LaneFault
        ensures { result ≡ fault_of self.now.lane.reading }
    {
        match self.lane.reading {
            Reading::Open => LaneFault::Nothing,
            Reading::Ended => LaneFault::Nothing,
            Reading::Failed => LaneFault::Source,
            Reading::Wanting => LaneFault::NoMemory,
        }
    }

    /// What was counted: `sessions`, `torn`, `broken`, `refused` and `stray`. The other counts are 0.
    pub fn counts(&self) -> RunCounts
        ensures { result ≡ counts_of self.now.lane.state.tally }
    {
        counts(self.lane.state.tally)
    }

    /// Gives the source back.
    pub fn end(self) -> S
        ensures { result ≡ self.source }
    {
        self.source
    }

    /// What is given without a question to the source: what waits of the events before, and once reading is over the closings
    /// of the open sessions and then the end. None where nothing waits and reading goes on.
    pub fn waiting(&mut self) -> Option<InletAnswer>
        ensures hands { HandsOut self.old.lane self.new.lane result }
        ensures lessens { Lessens self.old.lane self.new.lane result }
        ensures source { self.new.source ≡ self.old.source }
    {
        self.lane.hand_out()
    }

    /// Asks the source once, where nothing waits and reading goes on, and answers the first arrival of what it gave.
    pub fn ask(&mut self) -> InletAnswer
        requires { IsIdle self.old.lane }
        ensures { (asked : Asked) × IsQuestion asked × Asks S.left S.faults asked self.old.source self.new.source × Causes asked self.old.lane.reading self.new.lane.reading result × Stops asked self.old.lane self.new.lane
            × ((settings : Settings) (input : ℕ) (taken : List Scripted) (out : List (Arrival (List ℕ))) → Stands settings input taken out self.old.lane
            → Answers settings input (and_given asked taken) out self.new.lane result) }
    {
        match self.source.next(&mut self.room) {
            Err(OutsideFault::NoMemory) => self.lane.want(),
            Err(OutsideFault::Failed) => self.lane.finish(Reading::Failed),
            Ok(event) => match kind(event) {
                Kind::End => self.lane.finish(Reading::Ended),
                Kind::Look => InletAnswer::NotYet,
                Kind::Event => self.lane.took(event, &self.room),
            },
        }
    }

    /// The next arrival. While reading goes on, the source is asked once where nothing waits of the events before.
    pub fn next(&mut self) -> InletAnswer
        ensures { (asked : Asked) × Asks S.left S.faults asked self.old.source self.new.source × Causes asked self.old.lane.reading self.new.lane.reading result × Stops asked self.old.lane self.new.lane
            × ((settings : Settings) (input : ℕ) (taken : List Scripted) (out : List (Arrival (List ℕ))) → Stands settings input taken out self.old.lane
            → Answers settings input (and_given asked taken) out self.new.lane result) }
    {
        match self.waiting() {
            Some(answer) => answer,
            None => self.ask(),
        }
    }
}
