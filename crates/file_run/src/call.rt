// Makes a call.
use crate::sets::{have_room, read_sets};
use col_base::Octets;
use file_output::{FileFault, FileSets, Numbering};
use std::alloc::{AllocError, Global};

/// A message, and what is to come of it.
#[derive(Clone, Copy)]
struct Call<'a> {
    domain: u32,
    export: u32,
    wanted: &'a str,
    sets: &'a str,
}

impl<'a> Call<'a> {
    /// The call of a line, as `DOMAIN EXPORT WANTED SETS`.
    fn read(line: &'a str) -> Option<Call<'a>> {
        let (domain, rest) = line.split_once(' ')?;
        let (export, rest) = rest.split_once(' ')?;
        let (wanted, sets) = rest.split_once(' ')?;
        Some(Call {
            domain: domain.parse::<u32>().ok()?,
            export: export.parse::<u32>().ok()?,
            wanted,
            sets,
        })
    }
}

/// Whether an answer and what was appended are what is wanted: `limit:N` with nothing appended, or octets.
fn is_wanted(alloc: Global, answer: Result<(), FileFault>, out: &Octets, wanted: &str) -> bool {
    match (answer, wanted.strip_prefix("limit:")) {
        (Err(FileFault::Limit(n)), Some(number)) => {
            out.is_empty() && number.parse::<u64>().ok() == Some(n)
        }
        (Ok(()), None) => match hex::decode(alloc, wanted) {
            Ok(octets) => out.as_slice() == octets.as_slice(),
            Err(_) => false,
        },
        _ => false,
    }
}

/// Whether a call of a line does what it should.
pub fn passes(alloc: Global, numbering: &mut Numbering, line: &str) -> Result<bool, AllocError> {
    let Some(call) = Call::read(line) else {
        return Ok(false);
    };
    let Some(sets) = read_sets(alloc, call.sets)? else {
        return Ok(false);
    };
    if !have_room(&sets) {
        return Ok(false);
    }
    let mut out = Octets::new(alloc);
    let answer = numbering.put_message(call.domain, call.export, &sets, &mut out);
    Ok(is_wanted(alloc, answer, &out, call.wanted))
}
