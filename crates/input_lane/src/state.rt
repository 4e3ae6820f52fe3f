// What an input keeps.
use crate::came::Came;
use crate::links::Links;
use crate::tally::Tally;
use col_base::Transport;
use session_table::Sessions;
use std::collections::VecDeque;

/// Whether the source is still read.
#[derive(Clone, Copy, Debug, PartialEq, Eq)]
pub enum Reading {
    /// It is asked for more.
    Open,
    /// It came to its end, or the input took as many events as it may.
    Ended,
    /// It failed.
    Failed,
    /// Memory was wanted: nothing goes on.
    Wanting,
}

/// What stands of the events so far, and the arrivals that wait.
#[derive(Drop)]
pub struct State {
    /// The number of the input.
    pub input: u16,
    pub transport: Transport,
    /// The seconds of the last tick, 0 before the first.
    pub seconds: u32,
    pub sessions: Sessions,
    /// The connections, with a session or not.
    pub links: Links,
    /// What arrived and was not given yet: it is empty before the source is asked.
    pub hand: VecDeque<Came>,
    pub tally: Tally,
}

/// An input without its source.
#[derive(Drop)]
pub struct Lane {
    pub state: State,
    pub reading: Reading,
    /// After how many events reading ends; 0 is no limit.
    pub stop_after: u64,
    /// How many events were taken.
    pub taken: u64,
}

/// What an answer of a source is.
#[derive(Clone, Copy, Debug, PartialEq, Eq)]
pub enum Kind {
    Event,
    /// Nothing was ready.
    Look,
    End,
}
