// The stream of a connection.
ghost use Rattle.std.specs.Prelude.{◌≡◌, IfOk};
ghost use Rattle.input_lane.specs.Brings.{StreamBrings};
ghost use Rattle.input_lane.specs.Links.{torn_more};

use crate::brought::Brought;
use crate::came::Came;
use crate::hand::cut;
use col_base::{SessionKey, WantOfMemory};
use site_io::count_up;
use std::alloc::Global;
use std::collections::VecDeque;
use stream_cut::Cutter;

/// What is kept of a connection that was opened and not closed.
#[derive(Drop)]
pub enum Stream {
    /// The number of its session, and what came of it and was no message yet.
    Open(u32, Cutter),
    /// It was refused, or its stream went on with no header: it has no session, and its octets are thrown away.
    Dead,
}

impl Stream {
    /// The count of torn sessions, where this one ends now.
    pub fn torn(&self, count: u64) -> u64
        ensures { result ≡ torn_more count self.now }
    {
        match self {
            Stream::Dead => count,
            Stream::Open(_, cutter) => {
                if cutter.rest().is_empty() {
                    return count;
                }
                count_up(count)
            }
        }
    }

    /// Octets come. A stream that goes on with no header is dead from then on.
    pub fn bring(
        &mut self,
        alloc: Global,
        input: u16,
        octets: &[u8],
        hand: &mut VecDeque<Came>,
    ) -> Result<Brought, WantOfMemory>
        ensures { IfOk result (StreamBrings input octets.now self.old self.new hand.old.items hand.new.items) }
    {
        let broken = match self {
            Stream::Dead => return Ok(Brought::Dead),
            Stream::Open(number, cutter) => {
                cutter.feed(octets)?;
                let key = SessionKey {
                    input,
                    number: *number,
                };
                cut(alloc, cutter, key, hand)?
            }
        };
        if broken {
            *self = Stream::Dead;
            return Ok(Brought::Broken);
        }
        Ok(Brought::Alive)
    }
}
