// The input over its source.
ghost use Rattle.std.specs.Prelude.{◌≤◌, length};

use crate::state::Lane;

/// An input: its source, and what came of it. `next` gives its arrivals one by one.
#[derive(Drop)]
pub struct Inlet<S> {
    pub(crate) source: S,
    /// Where the source puts the octets of an event: 65,535, which is the most that one has.
    pub(crate) room: Vec<u8>,
    pub(crate) lane: Lane,
    ghost whole: { 65535 ≤ length room.items },
}
