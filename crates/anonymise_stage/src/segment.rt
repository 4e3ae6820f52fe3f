// Which row decides over which addresses.
//
// Rows cover ranges of addresses, one inside the other or apart. Between two bounds of ranges that follow one another no
// range begins or ends, so that each row agrees with all addresses there or with none, and one row decides over them. Mind
// that a range's bounds are its first number and the one behind its last; the greatest number has none behind it, and
// stands for itself.
ghost use Rattle.std.specs.Prelude.{◌≡◌, ◌<◌, ◌≤◌, ◌&&◌, ℕ, List, IfOk, IfSome, length, slice_index_or};
ghost use Rattle.std.specs.List.Sorted.{IsNonDecreasingBy};
ghost use Rattle.anonymise_stage.specs.Segments.{AreSegments, after, best_at, bounds_of, covers_at, has_more, row_at, start_of};

use crate::prepared_row::PreparedRow;
use std::alloc::{AllocError, Global};

/// The addresses from a start up to the next segment's, and the place of the row that decides over all of them.
#[derive(Clone, Copy)]
pub struct Segment {
    pub start: u128,
    pub found: Option<usize>,
}

/// Whether an address of so many octets and this number agrees with a row.
fn covers(row: &PreparedRow, octets: usize, number: u128) -> bool
    ensures { result ≡ covers_at octets number row.now }
{
    octets == row.row.from.octets.len() && row.low <= number && number <= row.high
}

/// Whether a row has more bits than the one at a place.
fn has_more(rows: &[PreparedRow], found: Option<usize>, row: &PreparedRow) -> bool
    requires { IfSome found (λ place. place < length rows.now) }
    ensures { result ≡ has_more (row_at rows.now found) row.now }
{
    match found {
        Some(place) => rows[place].row.from.bits < row.row.from.bits,
        None => true,
    }
}

/// Whether a row agrees with an address of so many octets and this number, and has more bits than the one at a place.
fn is_better(
    rows: &[PreparedRow],
    found: Option<usize>,
    row: &PreparedRow,
    octets: usize,
    number: u128,
) -> bool
    requires { IfSome found (λ place. place < length rows.now) }
    ensures { result ≡ (covers_at octets number row.now && has_more (row_at rows.now found) row.now) }
{
    covers(row, octets, number) && has_more(rows, found, row)
}

/// The place of the row that decides over an address of so many octets and this number.
fn best_place(rows: &[PreparedRow], octets: usize, number: u128) -> Option<usize>
    ensures is { row_at rows.now result ≡ best_at octets number rows.now }
    ensures inside { IfSome result (λ place. place < length rows.now) }
{
    let mut found = None;
    for place in 0..rows.len() {
        if is_better(rows, found, &rows[place], octets, number) {
            found = Some(place);
        }
    }
    found
}

/// Where the ranges of the rows of so many octets begin, and what follows them.
fn bounds(alloc: Global, rows: &[PreparedRow], octets: usize) -> Result<Vec<u128>, AllocError>
    ensures { IfOk result (λ bounds. bounds.items ≡ bounds_of octets rows.now) }
{
    let mut bounds = Vec::new(alloc);
    for row in rows {
        if octets == row.row.from.octets.len() {
            bounds.push(row.low)?;
            bounds.push(row.high.saturating_add(1))?;
        }
    }
    Ok(bounds)
}

/// Cuts the addresses of so many octets into segments.
pub fn segments(
    alloc: Global,
    rows: &[PreparedRow],
    octets: usize,
) -> Result<Vec<Segment>, AllocError>
    ensures { IfOk result (λ segments. AreSegments octets rows.now segments.items) }
{
    let mut starts = bounds(alloc, rows, octets)?;
    starts.sort()?;
    let mut segments = Vec::new(alloc);
    for start in &starts {
        segments.push(Segment {
            start: *start,
            found: best_place(rows, octets, *start),
        })?;
    }
    Ok(segments)
}

/// How many segments begin at a number or before.
fn behind(segments: &[Segment], number: u128) -> usize
    requires { IsNonDecreasingBy start_of segments.now }
    ensures bound { result ≤ length segments.now }
    ensures before { (k : ℕ) (d : Segment) → k < result → (slice_index_or segments.now k d).start ≤ number }
    ensures after { (k : ℕ) (d : Segment) → result ≤ k → k < length segments.now → number < (slice_index_or segments.now k d).start }
{
    segments.partition_point(|segment| segment.start <= number)
}

/// The place of the row that decides over an address by its number.
pub fn find(segments: &[Segment], number: u128) -> Option<usize>
    requires { IsNonDecreasingBy start_of segments.now }
    ensures { (octets : ℕ) (rows : List PreparedRow) → AreSegments octets rows segments.now → row_at rows result ≡ best_at octets number rows }
{
    let behind = behind(segments, number);
    if behind == 0 {
        return None;
    }
    segments[behind - 1].found
}
