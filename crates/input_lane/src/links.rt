// Connections of an input.
ghost use Rattle.std.specs.Prelude.{◌≡◌, ◌++◌, [], ◌∷◌, None, Some, not, find, filter, fold, MatchBool, MatchOption, OnOk, ◌<◌, IfOk};
ghost use Rattle.indexmap.specs.IndexMap.{index_map_len, keys, values};
ghost use Rattle.input_lane.specs.Brings.{Brings, BringsAt};
ghost use Rattle.input_lane.specs.Links.{AreApart, HasLink, link_is, stream_link, torn_by, torn_more};

use crate::brought::Brought;
use crate::came::Came;
use crate::stream::Stream;
use col_base::WantOfMemory;
use indexmap::IndexMap;
use std::alloc::Global;
use std::collections::VecDeque;
use std::marker::Model;

/// The connections that were opened and not closed, in order of opening, each with its stream. One that is known is found by
/// its number without a search.
#[derive(Drop)]
pub struct Links {
    streams: IndexMap<u32, Stream>,
}

impl Model for Links {
    ghost use Rattle.std.specs.Prelude.{List, map, nat_eq};
    ghost use Rattle.indexmap.specs.IndexMap.{IsUnique};
    ghost use Rattle.input_lane.specs.Links.{Link, link_row};

    ghost Value = { List Link };

    ghost view = { λ l. map link_row l.streams.entries };

    ghost invariant = { λ l. IsUnique nat_eq l.streams };
}

/// The count of torn sessions, where all streams end now.
fn torn_of(streams: &IndexMap<u32, Stream>, count: u64) -> u64
    ensures { result ≡ fold torn_more count (values streams.now) }
{
    streams
        .values()
        .fold(count, |torn, stream| stream.torn(torn))
}

/// Octets come to the stream at a place.
fn bring_at(
    streams: &mut IndexMap<u32, Stream>,
    alloc: Global,
    i: usize,
    input: u16,
    octets: &[u8],
    hand: &mut VecDeque<Came>,
) -> Result<Brought, WantOfMemory>
    requires { i < index_map_len streams.old }
    ensures keys { keys streams.new ≡ keys streams.old }
    ensures brings { IfOk result (BringsAt input octets.now streams.old.entries streams.new.entries i hand.old.items hand.new.items) }
{
    let stream = &mut streams[i];
    stream.bring(alloc, input, octets, hand)
}

impl Links {
    /// None. It takes no memory.
    pub fn new(alloc: Global) -> Self
        ensures { result ≡ [] }
    {
        Links {
            streams: IndexMap::new(alloc),
        }
    }

    /// Whether a connection is there.
    pub fn has(&self, conn: u32) -> bool
        ensures { MatchBool result (HasLink conn self.now) (find (link_is conn) self.now ≡ None) }
    {
        self.streams.contains_key(&conn)
    }

    /// A connection opens.
    pub fn open(&mut self, conn: u32, stream: Stream) -> Result<(), WantOfMemory>
        requires { find (link_is conn) self.old ≡ None }
        ensures { OnOk result (self.new ≡ self.old ++ stream_link conn stream ∷ []) }
    {
        self.streams.insert(conn, stream)?;
        Ok(())
    }

    /// A connection closes, and its stream is given back.
    pub fn close(&mut self, conn: u32) -> Option<Stream>
        ensures found { MatchOption result (find (link_is conn) self.old ≡ None) (λ s. find (link_is conn) self.old ≡ Some (stream_link conn s)) }
        ensures others { self.new ≡ filter (λ x. not (link_is conn x)) self.old }
        ensures apart { AreApart self.old }
    {
        self.streams.shift_remove(&conn)
    }

    /// The count of torn sessions, where all streams end now.
    pub fn torn(&self, count: u64) -> u64
        ensures { result ≡ fold torn_by count self.now }
    {
        torn_of(&self.streams, count)
    }

    /// Octets of a connection come. None, and nothing changes, where it is not there.
    pub fn bring(
        &mut self,
        alloc: Global,
        conn: u32,
        input: u16,
        octets: &[u8],
        hand: &mut VecDeque<Came>,
    ) -> Result<Option<Brought>, WantOfMemory>
        ensures apart { AreApart self.old }
        ensures brings { IfOk result (λ found. MatchOption found ((find (link_is conn) self.old ≡ None) × (self.new ≡ self.old) × (hand.new ≡ hand.old)) (Brings input conn octets.now self.old self.new hand.old.items hand.new.items)) }
    {
        match self.streams.get_index_of(&conn) {
            None => Ok(None),
            Some(i) => {
                let brought = bring_at(&mut self.streams, alloc, i, input, octets, hand)?;
                Ok(Some(brought))
            }
        }
    }
}
