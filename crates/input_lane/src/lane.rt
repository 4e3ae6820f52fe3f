// The input without its source.
ghost use Rattle.std.specs.Prelude.{◌≡◌, ◌≤◌, ◌<◌, ◌⊎◌, ⊤, MatchBool, Some, length, true};
ghost use Rattle.arrival_spec.specs.declared.event.Scripted.{Scripted};
ghost use Rattle.arrival_spec.specs.Events.{is_event};
ghost use Rattle.site_io.specs.Events.{event_in, HasLength};
ghost use Rattle.input_lane.specs.Hands.{IsGot};
ghost use Rattle.input_lane.specs.Inlets.{AnswersFrom, Ends, EndsAs, HandsOut, IsNoLook, Lessens, LessensBy, StopsBy, Took, is_end, kind_of};
ghost use Rattle.input_lane.specs.declared.state.Reading.TheVariants as reading;

use crate::came::InletAnswer;
use crate::hand::handed;
use crate::state::{Kind, Lane, Reading};
use session_table::Arrival;
use site_io::{SourceEvent, count_up};

/// What an answer of a source is.
pub fn kind(answer: SourceEvent) -> Kind
    ensures { result ≡ kind_of answer }
{
    match answer {
        SourceEvent::End => Kind::End,
        SourceEvent::NotYet => Kind::Look,
        SourceEvent::Opened(_) => Kind::Event,
        SourceEvent::Bytes(_, _) => Kind::Event,
        SourceEvent::Datagram(_, _) => Kind::Event,
        SourceEvent::Closed(_) => Kind::Event,
        SourceEvent::Tick(_) => Kind::Event,
    }
}

impl Lane {
    /// The next of what is left once reading is over: what waits, the closings of the open sessions, and then the end for good.
    fn over(&mut self) -> InletAnswer
        requires { is_end self.old.reading ≡ true }
        ensures reading { self.new.reading ≡ self.old.reading }
        ensures answers { AnswersFrom self.old self.new result }
        ensures lessens { LessensBy self.old self.new result }
        ensures got { IsGot result }
    {
        match self.state.hand.pop_front() {
            Some(came) => return handed(came),
            None => {}
        }
        match self.state.sessions.close_next() {
            Some(key) => InletAnswer::Got(Arrival::SessionClose(key)),
            None => InletAnswer::Got(Arrival::End),
        }
    }

    /// What is to be answered without a question to the source.
    pub fn hand_out(&mut self) -> Option<InletAnswer>
        ensures hands { HandsOut self.old self.new result }
        ensures lessens { Lessens self.old self.new result }
    {
        match self.reading {
            Reading::Wanting => Some(InletAnswer::NoMemory),
            Reading::Open => match self.state.hand.pop_front() {
                Some(came) => Some(handed(came)),
                None => None,
            },
            Reading::Ended => Some(self.over()),
            Reading::Failed => Some(self.over()),
        }
    }

    /// Memory was wanted.
    pub fn want(&mut self) -> InletAnswer
        ensures reading { self.new.reading ≡ reading.Wanting }
        ensures answer { result ≡ InletAnswer.NoMemory }
    {
        self.reading = Reading::Wanting;
        InletAnswer::NoMemory
    }

    /// Reading ends.
    pub fn finish(&mut self, how: Reading) -> InletAnswer
        requires { is_end how ≡ true }
        ensures ends { Ends self.old self.new result }
        ensures how { EndsAs how self.new.reading result }
    {
        self.state.finish();
        self.reading = how;
        self.over()
    }

    /// Whether as many events were taken as may be.
    fn has_reached(&self) -> bool
        ensures { MatchBool result ((0 < self.now.stop_after) × (self.now.stop_after ≤ self.now.taken)) ((self.now.stop_after ≡ 0) ⊎ (self.now.taken < self.now.stop_after)) }
    {
        self.stop_after != 0 && self.taken >= self.stop_after
    }

    /// An event was given.
    pub fn took(&mut self, event: SourceEvent, room: &[u8]) -> InletAnswer
        requires room { 65535 ≤ length room.now }
        requires lengths { HasLength event }
        requires reading { self.old.reading ≡ reading.Open }
        ensures look { IsNoLook result }
        ensures took { (e : Scripted) → event_in room.now event ≡ Some e → is_event e ≡ true → Took e self.old self.new result }
        ensures stops { (e : Scripted) → is_event e ≡ true → StopsBy e self.old self.new }
    {
        let _limit = self.stop_after;
        match self.state.take(event, room) {
            Ok(()) => {}
            Err(_) => return self.want(),
        }
        self.taken = count_up(self.taken);
        if self.has_reached() {
            return self.finish(Reading::Ended);
        }
        match self.state.hand.pop_front() {
            Some(came) => handed(came),
            None => InletAnswer::Nothing,
        }
    }
}
