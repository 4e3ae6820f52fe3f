// An input: its source, read and parsed.
ghost use Rattle.std.specs.Prelude.{◌≡◌, [], None, IfOk, IfErr};
ghost use Rattle.run_input.specs.Inputs.{Brings, CountsAll, HasGiven, IsRight, IsSoundAnswer};
ghost use Rattle.parser_lane.specs.Parsers.{settings_of};

use crate::counts::added;
use crate::work::{Worked, end_of, work_off};
use call_spec::InputEnd;
use col_base::WantOfMemory;
use config_spec::InputConf;
use input_lane::{Inlet, InletAnswer};
use parser_lane::Parser;
use pipeline_message::{Msg, RunCounts};
use site_io::Source;
use std::alloc::Global;

/// What an input answers.
#[derive(Drop)]
pub enum InputAnswer {
    /// The message of the next arrival.
    Message(Msg),
    /// The source gave an event, from which nothing arrived.
    Nothing,
    /// The source had nothing ready.
    NotYet,
    /// It has ended.
    Ended,
}

/// An input of a run.
#[derive(Drop)]
pub struct Input<S> {
    /// Its number, by which its arrivals are logged.
    number: u16,
    inlet: Inlet<S>,
    parser: Parser,
    /// How it ended, if it has: nothing more is asked of it then.
    end: Option<InputEnd>,
}

impl<S: Source> Input<S> {
    /// The input of this number over a source, as the description sets it. Where memory is wanted the source is given back.
    pub fn new(
        alloc: Global,
        conf: &InputConf,
        number: u16,
        source: S,
    ) -> Result<Self, (WantOfMemory, S)>
        ensures new { IfOk result (λ input. HasGiven S.left S.faults source (settings_of conf.now) number [] [] input) }
        ensures source { IfOk result (λ input. input.inlet.source ≡ source) }
        ensures open { IfOk result (λ input. input.end ≡ None) }
        ensures refused { IfErr result (λ refused. refused.1 ≡ source) }
    {
        match Parser::new(alloc, conf) {
            Err(want) => Err((want, source)),
            Ok(parser) => match Inlet::new(alloc, conf, number, source) {
                Err(refused) => Err(refused),
                Ok(inlet) => Ok(Input {
                    number,
                    inlet,
                    parser,
                    end: None,
                }),
            },
        }
    }

    /// Its number.
    pub fn number(&self) -> u16
        ensures { result ≡ self.now.number }
    {
        self.number
    }

    /// How it ended, if it has.
    pub fn end(&self) -> Option<InputEnd>
        ensures { result ≡ self.now.end }
    {
        self.end
    }

    /// The message of the next arrival. While reading goes on, the source is asked once where nothing waits of the events
    /// before. Where memory is wanted the input has ended, and so it has behind its last arrival.
    pub fn next(&mut self) -> InputAnswer
        requires { IsRight S.left S.faults self.old }
        ensures brings { Brings S.left S.faults self.old self.new result }
        ensures sound { IsSoundAnswer result }
    {
        if self.end.is_some() {
            return InputAnswer::Ended;
        }
        match self.inlet.next() {
            InletAnswer::Nothing => InputAnswer::Nothing,
            InletAnswer::NotYet => InputAnswer::NotYet,
            InletAnswer::NoMemory => {
                self.end = Some(InputEnd::Memory);
                InputAnswer::Ended
            }
            InletAnswer::Got(arrival) => match work_off(&mut self.parser, &arrival) {
                Worked::Message(message) => InputAnswer::Message(message),
                Worked::Wanted => {
                    self.end = Some(InputEnd::Memory);
                    InputAnswer::Ended
                }
                Worked::Last => {
                    self.end = Some(end_of(self.inlet.fault()));
                    InputAnswer::Ended
                }
            },
        }
    }

    /// What was counted of its events and messages. Each count stands still at 2^64 - 1.
    pub fn counts(&self) -> RunCounts
        ensures { CountsAll self.now result }
    {
        added(self.inlet.counts(), self.parser.counts())
    }

    /// Gives the source back. It takes no memory.
    pub fn back(self) -> S
        ensures { result ≡ self.inlet.source }
    {
        let Input { inlet, .. } = self;
        inlet.end()
    }
}
