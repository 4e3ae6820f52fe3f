// Connections with an open session.
ghost use Rattle.std.specs.Prelude.{◌≡◌, ◌++◌, [], ◌∷◌, None, not, length, filter, find, MatchOption, OnOk, OnErr};
ghost use Rattle.session_table.specs.Rows.{conn_is, FirstConn, HasConn};

use indexmap::IndexMap;
use std::alloc::{AllocError, Global};
use std::marker::Model;

/// The session of each connection, by the connection's number, in order of opening.
#[derive(Drop)]
pub struct Connections {
    sessions: IndexMap<u32, u32>,
}

impl Model for Connections {
    ghost use Rattle.std.specs.Prelude.{List, map, nat_eq};
    ghost use Rattle.indexmap.specs.IndexMap.{IsUnique};
    ghost use Rattle.session_table.specs.Rows.{Conn, conn_row};

    ghost Value = { List Conn };

    ghost view = { λ c. map conn_row c.sessions.entries };

    ghost invariant = { λ c. IsUnique nat_eq c.sessions };
}

impl Connections {
    /// None. It takes no memory.
    pub fn new(alloc: Global) -> Self
        ensures { result ≡ [] }
    {
        Connections {
            sessions: IndexMap::new(alloc),
        }
    }

    /// How many are open.
    pub fn len(&self) -> usize
        ensures { result ≡ length self.now }
    {
        self.sessions.len()
    }

    /// The session of a connection.
    pub fn session(&self, conn: u32) -> Option<u32>
        ensures { MatchOption result (find (conn_is conn) self.now ≡ None) (HasConn conn self.now) }
    {
        self.sessions.get(&conn).copied()
    }

    /// A connection opens a session. Where memory is wanted nothing changes.
    pub fn open(&mut self, conn: u32, session: u32) -> Result<(), AllocError>
        requires { find (conn_is conn) self.old ≡ None }
        ensures ok { OnOk result (self.new ≡ self.old ++ record { conn = conn; session = session } ∷ []) }
        ensures err { OnErr result (self.new ≡ self.old) }
    {
        self.sessions.insert(conn, session)?;
        Ok(())
    }

    /// The session of a connection closes.
    pub fn close(&mut self, conn: u32) -> Option<u32>
        ensures found { MatchOption result (find (conn_is conn) self.old ≡ None) (HasConn conn self.old) }
        ensures others { self.new ≡ filter (λ x. not (conn_is conn x)) self.old }
    {
        self.sessions.shift_remove(&conn)
    }

    /// The oldest session closes.
    pub fn close_first(&mut self) -> Option<u32>
        ensures { MatchOption result ((self.old ≡ []) × (self.new ≡ [])) (FirstConn self.old self.new) }
    {
        let (_, session) = self.sessions.shift_remove_index(0)?;
        Some(session)
    }
}
