// A run over the source of a file and a sink.
ghost use Rattle.std.specs.Prelude.{◌≡◌, IfNone, IfOk};
ghost use Rattle.call_spec.specs.Files.{file_settings};
ghost use Rattle.input_lane.specs.Inlets.{IsIdle};
ghost use Rattle.input_lane.specs.Kept.{settings_of};
ghost use Rattle.file_lines.specs.Run.{IsFresh, IsReady, Ran, Steps, WorksWaiting};

use crate::open_sessions::OpenSessions;
use crate::texts::Texts;
use crate::work::take_answer;
use call_spec::InputEnd;
use config_spec::InputConf;
use input_lane::Inlet;
use run_input::end_of;
use site_io::{OutsideFault, Sink, Source};
use std::alloc::{AllocError, Global};

/// The most answers that are taken of a source, NotYet among them.
const ANSWERS: u64 = 1 << 48;

/// How a run ended: its input, and its output, if it did.
#[derive(Clone, Copy, PartialEq, Eq)]
pub struct Ended {
    pub input: InputEnd,
    pub output: Option<OutsideFault>,
}

/// The memory that a run works in.
#[derive(Drop)]
pub struct Run {
    alloc: Global,
    sessions: OpenSessions,
    texts: Texts,
}

/// Works off what waits of the events that came. None where all was.
fn work_waiting<S: Source, K: Sink>(
    inlet: &mut Inlet<S>,
    sessions: &mut OpenSessions,
    texts: &mut Texts,
    sink: &mut K,
) -> Option<InputEnd>
    ensures source { inlet.new.source ≡ inlet.old.source }
    ensures idle { IfNone result (IsIdle inlet.new.lane) }
    ensures works { WorksWaiting K.held K.faults inlet.old.lane inlet.new.lane sessions.old sessions.new texts.old texts.new sink.old sink.new result }
{
    while let Some(answer) = inlet.waiting() {
        match take_answer(answer, sessions, texts, sink) {
            Some(end) => return Some(end),
            None => {}
        }
    }
    None
}

/// Asks the source once, and works off all that arrives with its answer. None where it gave an event, and the reading goes
/// on. Sessions that are open at the end of the source close without a text.
fn read_one<S: Source, K: Sink>(
    inlet: &mut Inlet<S>,
    sessions: &mut OpenSessions,
    texts: &mut Texts,
    sink: &mut K,
) -> Option<InputEnd>
    requires { IsIdle inlet.old.lane }
    ensures { Steps S.left S.faults K.held K.faults inlet.old inlet.new sessions.old sessions.new texts.old texts.new sink.old sink.new result }
{
    let answer = inlet.ask();
    if inlet.is_over() {
        return Some(end_of(inlet.fault()));
    }
    match take_answer(answer, sessions, texts, sink) {
        Some(end) => Some(end),
        None => work_waiting(inlet, sessions, texts, sink),
    }
}

/// Asks the source up to its end, its first fault, or the most answers that are taken.
fn read_all<S: Source, K: Sink>(
    inlet: &mut Inlet<S>,
    sessions: &mut OpenSessions,
    texts: &mut Texts,
    sink: &mut K,
) -> InputEnd
    requires ready { IsReady inlet.old.lane }
    requires fresh { IsFresh sessions.old texts.old }
    ensures { Ran S.left S.faults K.held K.faults inlet.old.source inlet.new.source sink.old sink.new result texts.new.fault }
{
    for _ in 0..ANSWERS {
        match read_one(inlet, sessions, texts, sink) {
            Some(end) => return end,
            None => {}
        }
    }
    InputEnd::Limit
}

impl Run {
    /// The memory for a run over one file. A run takes more for the octets of an event, and as its sessions, messages,
    /// templates and lines need it.
    pub fn new(alloc: Global) -> Result<Run, AllocError>
        ensures { IfOk result (λ run. IsFresh run.sessions run.texts) }
    {
        Ok(Run {
            alloc,
            sessions: OpenSessions::new(alloc),
            texts: Texts::new(alloc)?,
        })
    }

    /// Reads the source up to its end, its first fault, or 2^48 answers, and writes the lines of each message. The source is
    /// given back.
    pub fn file<S: Source, K: Sink>(
        &mut self,
        conf: &InputConf,
        source: S,
        sink: &mut K,
    ) -> (Ended, S)
        requires file { settings_of conf.now ≡ file_settings }
        requires fresh { IsFresh self.old.sessions self.old.texts }
        ensures { Ran S.left S.faults K.held K.faults source result.1 sink.old sink.new result.0.input result.0.output }
    {
        let mut inlet = match Inlet::new(self.alloc, conf, 0, source) {
            Ok(inlet) => inlet,
            Err((_, source)) => {
                let ended = Ended {
                    input: InputEnd::Memory,
                    output: self.texts.fault,
                };
                return (ended, source);
            }
        };
        let input = read_all(&mut inlet, &mut self.sessions, &mut self.texts, sink);
        let ended = Ended {
            input,
            output: self.texts.fault,
        };
        (ended, inlet.end())
    }
}
