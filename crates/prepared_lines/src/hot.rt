// Lines whose values all have a shape and whose literals all fit a block: the loop that most records take.
//
// What is fast here and why (bench/README.md has figures): a literal is copied as one block of fixed size; the place in
// the text goes from call to call in a register, and no call asks for room, since the room of the whole line was asked
// for before; and no bound is tested, since the contracts hold it. Further shapes cost each member some tenth of its time,
// even where they call a function out of line: values of other shapes go the general way (general.rt).
ghost use Rattle.std.specs.Prelude.{◌≡◌, ◌≤◌, ◌+◌, ◌*◌, ◌++◌, true, length, take, drop};
ghost use Rattle.std.specs.List.{list_all, flat_map};
ghost use Rattle.prepared_lines.specs.Shape.{width};
ghost use Rattle.prepared_lines.specs.Hot.{is_inside, value_at, hot_text, hot_line};

use crate::literal::Literal;
use crate::shape::{Shape, place_shape, width};

/// A member of a fast line: octets, and behind them the value that stands at a place of the record.
#[derive(Drop)]
pub struct HotMember {
    pub literal: Literal,
    pub shape: Shape,
    pub at: usize,
}

/// A fast line: its members, and what ends it.
#[derive(Drop)]
pub struct HotLine {
    pub members: Vec<HotMember>,
    pub end: Literal,
    /// The most octets that a line takes while it is put together.
    pub most: usize,
}

/// The value of a member.
#[inline(always)]
fn value_at(rec: &[u8], at: usize, shape: Shape) -> &[u8]
    requires { at + width shape ≤ length rec.now }
    ensures is { result.now ≡ value_at rec.now at shape }
    ensures whole { length result.now ≡ width shape }
{
    &rec[at..at + width(shape)]
}

/// Puts a member behind a place.
#[inline(always)]
fn place_member(member: &HotMember, rec: &[u8], text: &mut [u8], at: usize) -> usize
    requires inside { is_inside (length rec.now) member.now ≡ true }
    requires room { at + 84 ≤ length text.old }
    ensures grown { take result text.new ≡ take at text.old ++ hot_text rec.now member.now }
    ensures near { result ≤ at + 84 }
{
    let end = member.literal.place(text, at);
    let value = value_at(rec, member.at, member.shape);
    place_shape(member.shape, value, text, end)
}

/// Puts all members behind a place.
#[inline(always)]
fn place_members(members: &[HotMember], rec: &[u8], text: &mut [u8], at: usize) -> usize
    requires inside { list_all (is_inside (length rec.now)) members.now ≡ true }
    requires room { at + 84 * length members.now ≤ length text.old }
    ensures grown { take result text.new ≡ take at text.old ++ flat_map (hot_text rec.now) members.now }
    ensures near { result ≤ at + 84 * length members.now }
{
    let mut end = at;
    for member in members {
        end = place_member(member, rec, text, end);
    }
    end
}

/// Puts the line of a record behind a place. It isn't inlined, so that all that put lines share the one loop, and the values
/// are inlined in it: in a program with several such loops LLVM would call them out of line, which costs each member more than
/// this call costs a record.
#[inline(never)]
pub fn place_hot(line: &HotLine, rec: &[u8], text: &mut [u8], at: usize) -> usize
    requires inside { list_all (is_inside (length rec.now)) line.now.members.items ≡ true }
    requires room { at + (84 * length line.now.members.items + 64) ≤ length text.old }
    ensures grown { take result text.new ≡ take at text.old ++ hot_line rec.now line.now.members.items line.now.end }
    ensures near { result ≤ length text.old }
{
    let end = place_members(&line.members, rec, text, at);
    line.end.place(text, end)
}
