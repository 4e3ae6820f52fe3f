// The parts of a line.
ghost use Rattle.std.specs.Prelude.{◌≤◌, IfOk};

use crate::fault::Fault;
use col_base::Octets;
use hex::FromHexError;
use site_io::SinkFail;
use std::alloc::{AllocError, Global};

/// The parts of a line between single spaces.
pub fn parts_of<'a>(alloc: Global, line: &'a str) -> Result<Vec<&'a str>, AllocError> {
    line.split(' ').collect(alloc)
}

/// The number that a part is, up to a greatest.
pub fn number(part: &str, most: u64) -> Result<u64, Fault>
    ensures { IfOk result (λ number. number ≤ most) }
{
    if let Ok(number) = part.parse::<u64>() {
        if number <= most {
            return Ok(number);
        }
    }
    Err(Fault::Wrong("a number is wanted, or a smaller one"))
}

/// A number of 32 bits.
pub fn number32(part: &str) -> Result<u32, Fault> {
    Ok(number(part, 4294967295)? as u32)
}

/// The octets that a part is in hexadecimal, `-` where there are none.
pub fn octets(alloc: Global, part: &str) -> Result<Octets, Fault> {
    if part == "-" {
        return Ok(Octets::new(alloc));
    }
    match hex::decode(alloc, part) {
        Ok(bytes) => {
            if bytes.is_empty() {
                return Err(Fault::Wrong("octets are wanted, `-` where there are none"));
            }
            Ok(Octets::from_vec(bytes))
        }
        Err(FromHexError::OutOfMemory) => Err(Fault::NoMemory),
        Err(_) => Err(Fault::Wrong("octets in hexadecimal are wanted")),
    }
}

/// Octets in hexadecimal, `-` where there are none.
pub fn hexadecimal(alloc: Global, octets: &[u8]) -> Result<String, AllocError> {
    if octets.is_empty() {
        return String::from_str(alloc, "-");
    }
    hex::encode(alloc, octets)
}

/// The numbers of calls.
pub fn calls(alloc: Global, parts: &[&str]) -> Result<Vec<u64>, Fault> {
    let mut calls = Vec::new(alloc);
    for part in parts {
        calls.push(number(part, u64::MAX)?)?;
    }
    Ok(calls)
}

/// The failing calls of a sink, each `CALL:TAKEN`.
pub fn failing_writes(alloc: Global, parts: &[&str]) -> Result<Vec<SinkFail>, Fault> {
    let mut fails = Vec::new(alloc);
    for part in parts {
        let Some((call, taken)) = part.split_once(':') else {
            return Err(Fault::Wrong("CALL:TAKEN is wanted"));
        };
        fails.push(SinkFail {
            call: number(call, u64::MAX)?,
            taken: number(taken, u64::MAX)? as usize,
        })?;
    }
    Ok(fails)
}
