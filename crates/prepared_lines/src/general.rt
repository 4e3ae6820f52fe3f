// Lines of any values, which stand at places that are found before.
ghost use Rattle.std.specs.Prelude.{◌≡◌, ◌≤◌, ◌<◌, ◌+◌, ◌*◌, ◌++◌, true, IfOk, length, take};
ghost use Rattle.std.specs.List.{list_all, flat_map, sum_by};
ghost use Rattle.prepared_lines.specs.Line.{is_within};
ghost use Rattle.prepared_lines.specs.Places.{octets_at, is_inside};
ghost use Rattle.prepared_lines.specs.General.{place_at, placed_text, text_at, placed_line, most_of_placed, most_at, most_of_line};

use crate::member::Member;
use record_iter::ValuePlace;
use std::alloc::AllocError;
use value_text::{BLOCK, place_piece, place_value};

/// A sum of octets. What no address reaches can't be kept in memory either.
fn plus(count: usize, more: usize) -> Result<usize, AllocError>
    ensures { IfOk result (λ sum. sum ≡ count + more) }
{
    match count.checked_add(more) {
        Some(sum) => Ok(sum),
        None => Err(AllocError),
    }
}

/// The most octets of a value's text.
fn most_of_value(len: usize) -> Result<usize, AllocError>
    ensures { IfOk result (λ most. most ≡ 6 * len + 20) }
{
    match len.checked_mul(6) {
        Some(most) => plus(most, 20),
        None => Err(AllocError),
    }
}

/// The most octets of a member.
fn most_of_member(member: &Member, place: ValuePlace) -> Result<usize, AllocError>
    ensures { IfOk result (λ most. most ≡ most_of_placed member.now place) }
{
    plus(member.literal.len(), most_of_value(place.len)?)
}

/// The place of a field's value.
pub fn place_at(places: &[ValuePlace], field: usize) -> ValuePlace
    requires { field < length places.now }
    ensures { result ≡ place_at places.now field }
{
    places[field]
}

/// The most octets that a line takes while it is put together.
pub fn most_of_line(
    members: &[Member],
    places: &[ValuePlace],
    end: &[u8],
) -> Result<usize, AllocError>
    requires { list_all (is_within (length places.now)) members.now ≡ true }
    ensures { IfOk result (λ most. most ≡ most_of_line places.now members.now end.now) }
{
    let mut most = 0;
    for member in members {
        let here = most_of_member(member, place_at(places, member.field))?;
        most = plus(most, here)?;
    }
    plus(most, plus(end.len(), BLOCK)?)
}

/// The octets at a place of a record.
fn octets_at(rec: &[u8], place: ValuePlace) -> &[u8]
    requires { is_inside (length rec.now) place ≡ true }
    ensures is { result.now ≡ octets_at rec.now place }
    ensures whole { length result.now ≡ place.len }
{
    &rec[place.at..place.at + place.len]
}

/// Puts a member behind a place of the text.
fn place_member(member: &Member, place: ValuePlace, rec: &[u8], text: &mut [u8], at: usize) -> usize
    requires inside { is_inside (length rec.now) place ≡ true }
    requires room { at + (most_of_placed member.now place + 64) ≤ length text.old }
    ensures grown { take result text.new ≡ take at text.old ++ placed_text rec.now member.now place }
    ensures near { result ≤ at + most_of_placed member.now place }
{
    let end = member.literal.place(text, at);
    place_value(member.kind, octets_at(rec, place), text, end)
}

/// Puts all members behind a place of the text.
fn place_members(
    members: &[Member],
    places: &[ValuePlace],
    rec: &[u8],
    text: &mut [u8],
    at: usize,
) -> usize
    requires within { list_all (is_within (length places.now)) members.now ≡ true }
    requires inside { list_all (is_inside (length rec.now)) places.now ≡ true }
    requires room { at + (sum_by (most_at places.now) members.now + 64) ≤ length text.old }
    ensures grown { take result text.new ≡ take at text.old ++ flat_map (text_at rec.now places.now) members.now }
    ensures near { result ≤ at + sum_by (most_at places.now) members.now }
{
    let mut end = at;
    for member in members {
        let place = place_at(places, member.field);
        end = place_member(member, place, rec, text, end);
    }
    end
}

/// Puts the line of a record behind a place of the text.
pub fn place_line(
    members: &[Member],
    places: &[ValuePlace],
    last: &[u8],
    rec: &[u8],
    text: &mut [u8],
    at: usize,
) -> usize
    requires within { list_all (is_within (length places.now)) members.now ≡ true }
    requires inside { list_all (is_inside (length rec.now)) places.now ≡ true }
    requires room { at + most_of_line places.now members.now last.now ≤ length text.old }
    ensures grown { take result text.new ≡ take at text.old ++ placed_line rec.now places.now members.now last.now }
    ensures near { result ≤ length text.old }
{
    let end = place_members(members, places, rec, text, at);
    place_piece(last, text, end)
}
