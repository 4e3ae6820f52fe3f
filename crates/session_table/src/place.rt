// Where what came belongs.
use col_base::SessionKey;

/// Which session a datagram or a connection belongs to.
#[derive(Clone, Copy, Debug, PartialEq, Eq)]
pub enum Where {
    /// Its session was open already.
    Known(SessionKey),
    /// Its session opened in this call.
    New(SessionKey),
    /// No further session can open: 4,096 are open, or 2^32 were opened.
    Refused,
}
