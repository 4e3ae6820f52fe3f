// What an input answers, worked off.
ghost use Rattle.std.specs.Prelude.{OnOk, OnErr};
ghost use Rattle.arrival_spec.specs.Arrival.Arrival.{Raw};
ghost use Rattle.parser_lane.specs.Parsers.{arrival_of};
ghost use Rattle.file_lines.specs.Work.{KeepsWritten, TakesAnswer, WorksOff, Writes};

use crate::open_sessions::OpenSessions;
use crate::texts::Texts;
use call_spec::InputEnd;
use col_base::{SessionKey, WantOfMemory};
use input_lane::InletAnswer;
use session_table::Arrival;
use site_io::Sink;

/// Takes a message, and writes its lines in one write where it has any.
fn write_message<K: Sink>(
    key: SessionKey,
    octets: &[u8],
    sessions: &mut OpenSessions,
    texts: &mut Texts,
    sink: &mut K,
) -> Result<(), WantOfMemory>
    ensures ok { OnOk result (Writes K.held K.faults (Raw key octets.now) sessions.old sessions.new texts.old texts.new sink.old sink.new) }
    ensures err { OnErr result (KeepsWritten K.held K.faults texts.old texts.new sink.old sink.new) }
{
    texts.clear();
    match sessions.take(key, octets, texts) {
        Ok(()) => {
            texts.flush(sink);
            Ok(())
        }
        Err(want) => Err(want),
    }
}

/// Works an arrival off. None where more may come behind it.
fn work_off<K: Sink>(
    arrival: &Arrival,
    sessions: &mut OpenSessions,
    texts: &mut Texts,
    sink: &mut K,
) -> Option<InputEnd>
    ensures { WorksOff K.held K.faults (arrival_of arrival.now) sessions.old sessions.new texts.old texts.new sink.old sink.new result }
{
    match arrival {
        Arrival::SessionOpen(key, _) => match sessions.open(*key) {
            Ok(()) => None,
            Err(_) => Some(InputEnd::Memory),
        },
        Arrival::Raw(key, octets) => {
            match write_message(*key, octets.as_slice(), sessions, texts, sink) {
                Ok(()) => None,
                Err(_) => Some(InputEnd::Memory),
            }
        }
        Arrival::SessionClose(key) => {
            sessions.close(*key);
            None
        }
        Arrival::Periodic(_, _) => None,
        Arrival::End => Some(InputEnd::End),
    }
}

/// Works an answer of an input off. None where more may come behind it.
pub fn take_answer<K: Sink>(
    answer: InletAnswer,
    sessions: &mut OpenSessions,
    texts: &mut Texts,
    sink: &mut K,
) -> Option<InputEnd>
    ensures { TakesAnswer K.held K.faults answer sessions.old sessions.new texts.old texts.new sink.old sink.new result }
{
    match answer {
        InletAnswer::Got(arrival) => work_off(&arrival, sessions, texts, sink),
        InletAnswer::Nothing => None,
        InletAnswer::NotYet => None,
        InletAnswer::NoMemory => Some(InputEnd::Memory),
    }
}
