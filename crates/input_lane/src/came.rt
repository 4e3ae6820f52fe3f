// What waits, and what is answered.
use col_base::{Octets, SessionKey, Transport};
use session_table::Arrival;
use std::sync::Arc;

/// An arrival that waits to be given. The end never waits.
#[derive(Drop)]
pub enum Came {
    SessionOpen(SessionKey, Transport),
    Raw(SessionKey, Arc<Octets>),
    SessionClose(SessionKey),
    Periodic(u16, u32),
}

/// What an input answers.
#[derive(Drop)]
pub enum InletAnswer {
    /// The next arrival.
    Got(Arrival),
    /// The source was asked and gave an event, from which nothing arrives.
    Nothing,
    /// The source was asked, and had nothing ready.
    NotYet,
    /// Memory was wanted, in this call or an earlier one.
    NoMemory,
}
