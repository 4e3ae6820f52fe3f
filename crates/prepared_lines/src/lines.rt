// The room in which a message's lines are put together.
ghost use Rattle.std.specs.Prelude.{◌≡◌, ◌≤◌, ◌+◌, ◌*◌, ◌++◌, [], true, List, ℕ, OnOk, OnErr, length, take};
ghost use Rattle.std.specs.List.{list_all};
ghost use Rattle.wire_spec.specs.Record.{IsRecord, IsSomeRecord};
ghost use Rattle.prepared_lines.specs.Line.{is_within, members_text};
ghost use Rattle.prepared_lines.specs.Places.{is_inside};
ghost use Rattle.prepared_lines.specs.General.{placed_line, most_of_line};
ghost use Rattle.prepared_lines.specs.Hot as hot;

use crate::general::{most_of_line, place_line};
use crate::hot::{HotLine, place_hot};
use crate::member::Member;
use crate::places::find_places;
use crate::way::PlacedLine;
use record_iter::ValuePlace;
use std::alloc::{AllocError, Global};
use std::marker::Model;
use value_text::place_piece;
use wire_spec::FieldSpec;

/// Text that grows, the lines of a message, which contracts see as its octets. It is kept from message to message with its
/// memory: the first `at` octets of `room` are the text. `places` is for the places of a record's values, so that they
/// need no memory of their own for each record.
#[derive(Drop)]
pub struct Lines {
    pub(crate) room: Vec<u8>,
    pub(crate) at: usize,
    pub(crate) places: Vec<ValuePlace>,
}

impl Model for Lines {
    ghost use Rattle.std.specs.Prelude.{List, ℕ, ◌≤◌, length, take};

    ghost Value = { List ℕ };

    ghost view = { λ l. take l.at l.room.items };

    ghost invariant = { λ l. l.at ≤ length l.room.items };
}

impl Lines {
    /// No text. It takes no memory.
    pub fn new(alloc: Global) -> Self
        ensures { result ≡ [] }
    {
        Lines {
            room: Vec::new(alloc),
            at: 0,
            places: Vec::new(alloc),
        }
    }

    pub fn as_slice(&self) -> &[u8]
        ensures { result.now ≡ self.now }
    {
        &self.room[..self.at]
    }

    /// Lets go the text, and keeps the memory for a later one.
    pub fn clear(&mut self)
        ensures { self.new ≡ [] }
    {
        self.at = 0;
    }

    /// Puts other octets behind the text, such as those of a line that is no record's. Where memory is refused the text
    /// stays as it was.
    pub fn extend(&mut self, octets: &[u8]) -> Result<(), AllocError>
        ensures ok { OnOk result (self.new ≡ self.old ++ octets.now) }
        ensures err { OnErr result (self.new ≡ self.old) }
    {
        make_room(&mut self.room, self.at, octets.len())?;
        self.at = place_piece(octets, &mut self.room, self.at);
        Ok(())
    }

    /// Puts the line of a record by the fast loop.
    #[inline(always)]
    pub(crate) fn put_hot(&mut self, line: &HotLine, rec: &[u8]) -> Result<(), AllocError>
        requires inside { list_all (hot.is_inside (length rec.now)) line.now.members.items ≡ true }
        requires most { line.now.most ≡ 84 * length line.now.members.items + 64 }
        ensures ok { OnOk result (self.new ≡ self.old ++ hot.hot_line rec.now line.now.members.items line.now.end) }
        ensures err { OnErr result (self.new ≡ self.old) }
    {
        make_room(&mut self.room, self.at, line.most)?;
        self.at = place_hot(line, rec, &mut self.room, self.at);
        Ok(())
    }

    /// Puts the line of a record whose values stand at places that are known before.
    #[inline(never)]
    pub(crate) fn put_placed(
        &mut self,
        members: &[Member],
        end: &[u8],
        line: &PlacedLine,
        rec: &[u8],
    ) -> Result<(), AllocError>
        requires within { list_all (is_within (length line.now.places.items)) members.now ≡ true }
        requires inside { list_all (is_inside (length rec.now)) line.now.places.items ≡ true }
        requires most { line.now.most ≡ most_of_line line.now.places.items members.now end.now }
        ensures ok { OnOk result (self.new ≡ self.old ++ placed_line rec.now line.now.places.items members.now end.now) }
        ensures err { OnErr result (self.new ≡ self.old) }
    {
        make_room(&mut self.room, self.at, line.most)?;
        self.at = place_line(members, &line.places, end, rec, &mut self.room, self.at);
        Ok(())
    }

    /// Puts the line of a record, whose fields may vary in length.
    #[inline(never)]
    pub(crate) fn put_walked(
        &mut self,
        fields: &[FieldSpec],
        members: &[Member],
        end: &[u8],
        rec: &[u8],
    ) -> Result<(), AllocError>
        requires within { list_all (is_within (length fields.now)) members.now ≡ true }
        requires whole { IsSomeRecord fields.now rec.now }
        ensures ok { OnOk result ((values : List (List ℕ)) × IsRecord fields.now rec.now values × (self.new ≡ self.old ++ (members_text members.now values ++ end.now))) }
        ensures err { OnErr result (self.new ≡ self.old) }
    {
        find_places(fields, rec, &mut self.places)?;
        let most = most_of_line(members, &self.places, end)?;
        make_room(&mut self.room, self.at, most)?;
        self.at = place_line(members, &self.places, end, rec, &mut self.room, self.at);
        Ok(())
    }
}

/// Makes a room larger, so that so many octets fit behind a place. It isn't inlined, since it is seldom called.
#[inline(never)]
#[cold]
fn grow(room: &mut Vec<u8>, at: usize, most: usize) -> Result<(), AllocError>
    requires { at ≤ length room.old.items }
    ensures kept { take at room.new.items ≡ take at room.old.items }
    ensures longer { at ≤ length room.new.items }
    ensures fits { OnOk result (at + most ≤ length room.new.items) }
{
    let Some(least) = at.checked_add(most) else {
        return Err(AllocError);
    };
    room.resize(least.saturating_mul(2), 0)
}

/// Sees that so many octets fit into a room behind a place. A room that grows is doubled.
#[inline(always)]
pub(crate) fn make_room(room: &mut Vec<u8>, at: usize, most: usize) -> Result<(), AllocError>
    requires { at ≤ length room.old.items }
    ensures kept { take at room.new.items ≡ take at room.old.items }
    ensures longer { at ≤ length room.new.items }
    ensures fits { OnOk result (at + most ≤ length room.new.items) }
{
    if most <= room.len() - at {
        return Ok(());
    }
    grow(room, at, most)
}
