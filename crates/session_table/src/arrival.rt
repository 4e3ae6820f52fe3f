// What arrives at an input.
use col_base::{Octets, SessionKey, Transport};
use std::sync::Arc;

/// What an event of a source stands for.
#[derive(Drop)]
pub enum Arrival {
    /// A session opens, over this transport.
    SessionOpen(SessionKey, Transport),
    /// A message came in a session: its octets are as they came, and may break the rules of a message.
    Raw(SessionKey, Arc<Octets>),
    /// A session closes.
    SessionClose(SessionKey),
    /// So many seconds since 1970, at the input of this number.
    Periodic(u16, u32),
    /// Nothing comes any more.
    End,
}
