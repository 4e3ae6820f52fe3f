// One arrival, worked off.
ghost use Rattle.std.specs.Prelude.{◌≡◌, true, false, MatchOption};
ghost use Rattle.parser_lane.specs.Parsers.{MayCome, arrival_of};
ghost use Rattle.run_input.specs.Standing.{IsSoundWork, WorksOff, end_by};

use call_spec::InputEnd;
use parser_lane::Parser;
use pipeline_message::{LaneFault, Msg};
use session_table::Arrival;

/// What came of an arrival.
#[derive(Drop)]
pub enum Worked {
    Message(Msg),
    /// It was the end.
    Last,
    /// Memory was wanted.
    Wanted,
}

/// Whether an arrival is the end.
fn is_last(arrival: &Arrival) -> bool
    ensures { MatchOption (arrival_of arrival.now) (result ≡ true) (λ _. result ≡ false) }
{
    match arrival {
        Arrival::End => true,
        Arrival::SessionOpen(_, _) => false,
        Arrival::Raw(_, _) => false,
        Arrival::SessionClose(_) => false,
        Arrival::Periodic(_, _) => false,
    }
}

/// Works an arrival off, unless it is the end.
pub fn work_off(parser: &mut Parser, arrival: &Arrival) -> Worked
    requires { MayCome arrival.now parser.old }
    ensures works { WorksOff (arrival_of arrival.now) parser.old parser.new result }
    ensures sound { IsSoundWork result }
{
    if is_last(arrival) {
        return Worked::Last;
    }
    match parser.work(arrival) {
        Ok(message) => Worked::Message(message),
        Err(_) => Worked::Wanted,
    }
}

/// How an input ended that gave its last arrival.
pub fn end_of(fault: LaneFault) -> InputEnd
    ensures { result ≡ end_by fault }
{
    match fault {
        LaneFault::Nothing => InputEnd::End,
        LaneFault::Source => InputEnd::Failed,
        LaneFault::Sink => InputEnd::End,
        LaneFault::Limit(_) => InputEnd::End,
        LaneFault::NoMemory => InputEnd::Memory,
    }
}
