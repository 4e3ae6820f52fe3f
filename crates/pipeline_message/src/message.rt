// What the stages of a run hand on: notes of sessions, decoded messages, and seconds.
use col_base::{Octets, SessionKey, Transport};
use std::sync::Arc;
use template_def::Definition;

/// Where a data record stands in the octets of its message: the octet at which it begins, counted from 0, and the number
/// of its octets.
#[derive(Clone, Copy, Debug, PartialEq, Eq, PartialOrd, Ord, Hash)]
pub struct Place {
    pub start: u32,
    pub len: u32,
}

/// A set of data records (RFC 7011, section 3.4.3): the definition that they are read by, its Template ID, and where each
/// of them stands, in order.
#[derive(Drop)]
pub struct DataSet {
    pub def: Arc<Definition>,
    pub template: u16,
    pub places: Vec<Place>,
}

/// A message of a session, as it was decoded: its Observation Domain ID, its Export Time in seconds since 1970, its
/// Sequence Number, its octets as they came, and its sets of data records. Sets without records are left out. It has none
/// where the message was dropped, and where it is malformed its three numbers are 0.
#[derive(Drop)]
pub struct DataMessage {
    pub session: SessionKey,
    pub domain: u32,
    pub export: u32,
    pub seq: u32,
    pub octets: Arc<Octets>,
    pub sets: Vec<DataSet>,
}

/// A session opened over a transport, or closed.
#[derive(Clone, Copy, Debug, PartialEq, Eq)]
pub struct SessionNote {
    pub key: SessionKey,
    pub transport: Transport,
    pub opened: bool,
}

/// What one stage hands on to the next. A decoded message is shared, and never copied.
#[derive(Drop)]
pub enum Msg {
    SessionMsg(SessionNote),
    DataMsg(Arc<DataMessage>),
    /// So many seconds since 1970, at the input of this number.
    Periodic { input: u16, seconds: u32 },
    /// Nothing comes any more.
    Terminate,
}
