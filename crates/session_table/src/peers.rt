// Peers with an open session.
ghost use Rattle.std.specs.Prelude.{◌≡◌, ◌<◌, ◌≤◌, ◌+◌, ◌++◌, [], ◌∷◌, None, Some, not, length, filter, find, map, min, nat_le, option_map, position, slice_get, true, IfNone, MatchOption, OnOk, OnErr};
ghost use Rattle.std.specs.List.{list_all, remove};
ghost use Rattle.indexmap.specs.IndexMap.{index_map_len, values};
ghost use Rattle.session_table.specs.Rows.{peer_is, peer_row, heard_row, is_later, session_of_peer, is_idle_entry, oldest_in, AreApart, FirstPeer, HasPeer, IdleGoes, NoneIsIdle};

use arrival_spec::PeerKey;
use indexmap::IndexMap;
use std::alloc::{AllocError, Global};
use std::marker::Model;

/// The session of a peer, and the time of its last datagram.
#[derive(Clone, Copy, Debug, PartialEq, Eq)]
pub struct Heard {
    pub session: u32,
    pub last: u32,
}

/// The session of each peer, in order of opening.
#[derive(Drop)]
pub struct Peers {
    heard: IndexMap<PeerKey, Heard>,
    /// No peer's last datagram is older than this. So a tick that comes before such a one is idle closes nobody, and needs
    /// no walk over the peers.
    oldest: u32,
}

impl Model for Peers {
    ghost use Rattle.std.specs.Prelude.{◌≡◌, List, map, true};
    ghost use Rattle.std.specs.List.{list_all};
    ghost use Rattle.session_table.specs.Rows.{PeerRow, peer_row, is_later};

    ghost Value = { List PeerRow };

    ghost view = { λ p. map peer_row p.heard.entries };

    ghost invariant = { λ p. list_all (is_later p.oldest) (map peer_row p.heard.entries) ≡ true };
}

/// The place of a peer's entry.
fn place_of(heard: &IndexMap<PeerKey, Heard>, key: PeerKey) -> Option<usize>
    ensures is { result ≡ position (peer_is key) (map peer_row heard.now.entries) }
    ensures apart { AreApart (map peer_row heard.now.entries) }
{
    heard.get_index_of(&key)
}

/// The session of the peer at a place.
fn session_at(heard: &IndexMap<PeerKey, Heard>, i: usize) -> u32
    requires { i < index_map_len heard.now }
    ensures { option_map session_of_peer (slice_get (map peer_row heard.now.entries) i) ≡ Some result }
{
    heard[i].session
}

/// The place of the first idle peer.
fn first_idle(heard: &IndexMap<PeerKey, Heard>, idle: u32, now: u32) -> Option<usize>
    ensures { result ≡ position (is_idle_entry idle now) (values heard.now) }
{
    heard
        .values()
        .position(|x| u64::from(x.last) + u64::from(idle) <= u64::from(now))
}

/// The time of the oldest of the last datagrams.
fn oldest_of(heard: &IndexMap<PeerKey, Heard>) -> u32
    ensures { result ≡ oldest_in 4294967295 (values heard.now) }
{
    heard
        .values()
        .fold(u32::MAX, |oldest, x| oldest.min(x.last))
}

impl Peers {
    /// None. It takes no memory.
    pub fn new(alloc: Global) -> Self
        ensures { result ≡ [] }
    {
        Peers {
            heard: IndexMap::new(alloc),
            oldest: 0,
        }
    }

    /// How many are open.
    pub fn len(&self) -> usize
        ensures { result ≡ length self.now }
    {
        self.heard.len()
    }

    /// A datagram of a peer came at this time. None, and nothing changes, where no session of it is open.
    pub fn hear(&mut self, key: PeerKey, now: u32) -> Option<u32>
        ensures found { MatchOption result (find (peer_is key) self.old ≡ None) (HasPeer key self.old) }
        ensures none { IfNone result (self.new ≡ self.old) }
        ensures heard { self.new ≡ map (heard_row key now) self.old }
    {
        let i = place_of(&self.heard, key)?;
        let session = session_at(&self.heard, i);
        self.heard[i] = Heard { session, last: now };
        self.oldest = self.oldest.min(now);
        Some(session)
    }

    /// A peer opens a session. Where memory is wanted nothing changes.
    pub fn open(&mut self, key: PeerKey, session: u32, now: u32) -> Result<(), AllocError>
        requires { find (peer_is key) self.old ≡ None }
        ensures ok { OnOk result (self.new ≡ self.old ++ record { key = key; session = session; last = now } ∷ []) }
        ensures err { OnErr result (self.new ≡ self.old) }
    {
        self.heard.insert(key, Heard { session, last: now })?;
        self.oldest = self.oldest.min(now);
        Ok(())
    }

    /// The first peer goes that sent nothing for so many seconds.
    pub fn close_idle(&mut self, idle: u32, now: u32) -> Option<u32>
        ensures { MatchOption result (NoneIsIdle idle now self.old self.new) (IdleGoes idle now self.old self.new) }
    {
        if u64::from(now) < u64::from(self.oldest) + u64::from(idle) {
            return None;
        }
        match first_idle(&self.heard, idle, now) {
            Some(i) => {
                let (_, heard) = self.heard.shift_remove_index(i)?;
                Some(heard.session)
            }
            None => {
                self.oldest = oldest_of(&self.heard);
                None
            }
        }
    }

    /// The oldest session closes.
    pub fn close_first(&mut self) -> Option<u32>
        ensures { MatchOption result ((self.old ≡ []) × (self.new ≡ [])) (FirstPeer self.old self.new) }
    {
        let (_, heard) = self.heard.shift_remove_index(0)?;
        Some(heard.session)
    }
}
