// What a call is to leave.
use crate::fault::Fault;
use crate::part::{number, octets};
use col_base::{Octets, Text};
use std::alloc::Global;

/// One thing that a call is to leave.
#[derive(Drop)]
pub enum Wanted {
    Status(u8),
    Said(Octets),
    /// A sink and what it holds.
    Held(Text, Octets),
    /// A place and how many of its events are left.
    Left(Text, u64),
    /// A place and how often it was opened.
    PlaceOpenings(Text, u64),
    /// A sink name and how often it was opened.
    SinkOpenings(Text, u64),
}

/// What the parts of a line say that is wanted, None where they are no such line.
pub fn wanted_of(alloc: Global, parts: &[&str]) -> Result<Option<Wanted>, Fault> {
    let wanted = match parts {
        ["status", status] => Wanted::Status(number(status, 255)? as u8),
        ["said", given] => Wanted::Said(octets(alloc, given)?),
        ["held", name, given] => {
            Wanted::Held(Text::from_str(alloc, name)?, octets(alloc, given)?)
        }
        ["left", place, count] => {
            Wanted::Left(Text::from_str(alloc, place)?, number(count, u64::MAX)?)
        }
        ["placeopenings", place, count] => {
            Wanted::PlaceOpenings(Text::from_str(alloc, place)?, number(count, u64::MAX)?)
        }
        ["sinkopenings", name, count] => {
            Wanted::SinkOpenings(Text::from_str(alloc, name)?, number(count, u64::MAX)?)
        }
        _ => return Ok(None),
    };
    Ok(Some(wanted))
}
