// What a call left beside what it is to leave.
use crate::played::Played;
use col_base::Octets;
use script_text::Wanted;
use std::alloc::{AllocError, Global};

/// The most octets that are told of a difference.
const TOLD: usize = 400;

/// How many octets there are, and the first of them as a text.
fn told(alloc: Global, octets: &[u8]) -> Result<String, AllocError> {
    let count = octets.len();
    let most = count.min(TOLD);
    let front = String::from_utf8_lossy(alloc, &octets[..most])?;
    format!(in alloc; "{count} octets {front:?}")
}

/// None where octets are those that are wanted, else both.
fn octets_differ(
    alloc: Global,
    what: &str,
    wanted: &Octets,
    found: Option<&[u8]>,
) -> Result<Option<String>, AllocError> {
    let Some(found) = found else {
        return Ok(Some(format!(in alloc; "{what}: no such sink is there")?));
    };
    if found == wanted.as_slice() {
        return Ok(None);
    }
    let wanted = told(alloc, wanted.as_slice())?;
    let found = told(alloc, found)?;
    Ok(Some(format!(in alloc; "{what}: expected {wanted}, found {found}")?))
}

/// None where a number is the one that is wanted, else both.
fn numbers_differ(
    alloc: Global,
    what: &str,
    wanted: u64,
    found: u64,
) -> Result<Option<String>, AllocError> {
    if found == wanted {
        return Ok(None);
    }
    Ok(Some(format!(in alloc; "{what}: expected {wanted}, found {found}")?))
}

/// How many events a place has left, a number that no list has where no source is there.
fn left_at(played: &Played, place: &str) -> u64 {
    match played.site.left(place) {
        Some(events) => events.len() as u64,
        None => u64::MAX,
    }
}

/// None where a call left this, else what was expected and what was found.
pub fn differs(
    alloc: Global,
    wanted: &Wanted,
    played: &Played,
) -> Result<Option<String>, AllocError> {
    let site = &played.site;
    match wanted {
        Wanted::Status(status) => {
            numbers_differ(
                alloc,
                "status",
                u64::from(*status),
                u64::from(played.status),
            )
        }
        Wanted::Said(octets) => octets_differ(alloc, "said", octets, Some(site.printed())),
        Wanted::Held(name, octets) => {
            octets_differ(alloc, "held", octets, site.shown(name.as_str()))
        }
        Wanted::Left(place, count) => {
            numbers_differ(alloc, "left", *count, left_at(played, place.as_str()))
        }
        Wanted::PlaceOpenings(place, count) => {
            let found = site.place_openings(place.as_str());
            numbers_differ(alloc, "placeopenings", *count, found)
        }
        Wanted::SinkOpenings(name, count) => {
            let found = site.sink_openings(name.as_str());
            numbers_differ(alloc, "sinkopenings", *count, found)
        }
    }
}
