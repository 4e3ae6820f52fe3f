// What octets of a connection brought.

/// What came of the octets of a connection.
#[derive(Clone, Copy, Debug, PartialEq, Eq)]
pub enum Brought {
    /// The connection has no session: they were thrown away.
    Dead,
    /// Each message that they make whole waits.
    Alive,
    /// The same, and the stream goes on with no header: the connection is dead from now on.
    Broken,
}
