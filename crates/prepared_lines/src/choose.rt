// Chooses the way in which the lines of a definition are written.
ghost use Rattle.std.specs.Prelude.{◌≡◌, ◌≤◌, ◌+◌, ◌*◌, true, IfOk, IfSome, length};
ghost use Rattle.std.specs.List.{list_all};
ghost use Rattle.wire_spec.specs.Size.{are_fixed};
ghost use Rattle.prepared_lines.specs.Line.{is_within};
ghost use Rattle.prepared_lines.specs.Way.{IsHotMember, AreHot, IsWay};

use crate::general::{most_of_line, place_at};
use crate::hot::{HotLine, HotMember};
use crate::literal::Literal;
use crate::member::Member;
use crate::places::fixed_places;
use crate::shape::shape_of;
use crate::way::{PlacedLine, Way};
use record_iter::ValuePlace;
use std::alloc::{AllocError, Global};
use value_text::BLOCK;
use wire_spec::FieldSpec;
use wire_spec::numbers::VARIABLE_LENGTH;

/// The most members of a fast line, so that its room is a small number.
const MOST_MEMBERS: usize = 65535;

/// Whether no field varies in length.
fn are_fixed(fields: &[FieldSpec]) -> bool
    ensures { result ≡ are_fixed fields.now }
{
    fields.iter().all(|field| field.len != VARIABLE_LENGTH)
}

/// The fast member that does what a member does whose value stands at a place, if there is one.
fn hot_member(member: &Member, place: ValuePlace) -> Option<HotMember>
    ensures { IfSome result (λ fast. IsHotMember place member.now fast) }
{
    let Some(kind) = member.kind else {
        return None;
    };
    let Some(shape) = shape_of(kind, place.len) else {
        return None;
    };
    Some(HotMember {
        literal: Literal::fitting(member.literal.as_slice())?,
        shape,
        at: place.at,
    })
}

/// The fast members that do what members do, if there are such.
fn hot_members(
    alloc: Global,
    members: &[Member],
    places: &[ValuePlace],
) -> Result<Option<Vec<HotMember>>, AllocError>
    requires { list_all (is_within (length places.now)) members.now ≡ true }
    ensures { IfOk result (λ found. IfSome found (λ fast. AreHot places.now members.now fast.items)) }
{
    let mut fast = Vec::with_capacity(alloc, members.len())?;
    for member in members {
        let Some(made) = hot_member(member, place_at(places, member.field)) else {
            return Ok(None);
        };
        fast.push(made)?;
    }
    Ok(Some(fast))
}

/// The fast line of members and what ends it, if there is one.
fn hot_line(
    alloc: Global,
    members: &[Member],
    end: &[u8],
    places: &[ValuePlace],
) -> Result<Option<HotLine>, AllocError>
    requires { list_all (is_within (length places.now)) members.now ≡ true }
    ensures { IfOk result (λ found. IfSome found (λ line. (line.most ≡ 84 * length line.members.items + 64) × (line.end ≡ end.now) × AreHot places.now members.now line.members.items)) }
{
    if end.len() > BLOCK {
        return Ok(None);
    }
    let Some(fast) = hot_members(alloc, members, places)? else {
        return Ok(None);
    };
    if fast.len() > MOST_MEMBERS {
        return Ok(None);
    }
    let most = 84 * fast.len() + BLOCK;
    Ok(Some(HotLine {
        members: fast,
        end: Literal::new(end),
        most,
    }))
}

/// The way in which lines are written, by the fields of the records, the members, and what ends the line.
pub fn way_of(
    alloc: Global,
    fields: &[FieldSpec],
    members: &[Member],
    end: &[u8],
) -> Result<Way, AllocError>
    requires { list_all (is_within (length fields.now)) members.now ≡ true }
    ensures { IfOk result (λ way. IsWay fields.now members.now end.now way) }
{
    if !are_fixed(fields) {
        return Ok(Way::Walked);
    }
    let places = fixed_places(alloc, fields)?;
    if let Some(line) = hot_line(alloc, members, end, &places)? {
        return Ok(Way::Hot(line));
    }
    let most = most_of_line(members, &places, end)?;
    Ok(Way::Placed(PlacedLine { places, most }))
}
