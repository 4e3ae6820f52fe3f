// Lines that stand for many.
use crate::fault::Fault;
use crate::part::{hexadecimal, number};
use std::alloc::Global;

/// How many numbers of 32 bits there are.
const NUMBERS: u64 = 4294967296;

/// The line for a number: with it in decimal in the place of each `#`, and with as many times it in the place of each
/// `%TIMES%`, in eight hexadecimal digits.
fn line_for(alloc: Global, line: &str, number: u64) -> Result<String, Fault> {
    let digits = number.to_string(alloc)?;
    let line = line.replace(alloc, "#", digits.as_str())?;
    let mut text = String::new(alloc);
    let mut is_factor = false;
    for part in line.as_str().split('%') {
        if is_factor {
            text.push_str(product_of(alloc, part, number)?.as_str())?;
        } else {
            text.push_str(part)?;
        }
        is_factor = !is_factor;
    }
    Ok(text)
}

/// So many times a number, modulo 2^32, in eight hexadecimal digits.
fn product_of(alloc: Global, times: &str, of: u64) -> Result<String, Fault> {
    let product = number(times, 65535)?.wrapping_mul(of) % NUMBERS;
    Ok(hexadecimal(alloc, &(product as u32).to_be_bytes())?)
}

/// Lines that stand for as many as there are numbers: for each number all of them.
#[derive(Drop)]
pub struct Each {
    first: u64,
    last: u64,
    lines: Vec<String>,
}

impl Each {
    /// What a line `each FIRST-LAST` begins, None where it is another line.
    pub fn begun(alloc: Global, line: &str) -> Result<Option<Self>, Fault> {
        let Some(numbers) = line.strip_prefix("each ") else {
            return Ok(None);
        };
        let Some((first, last)) = numbers.split_once('-') else {
            return Err(Fault::Wrong("FIRST-LAST is wanted"));
        };
        Ok(Some(Each {
            first: number(first, 65535)?,
            last: number(last, 65535)?,
            lines: Vec::new(alloc),
        }))
    }

    /// Takes the next line, and answers whether it belongs to these: it stands behind two spaces more.
    pub fn takes(&mut self, alloc: Global, line: &str) -> Result<bool, Fault> {
        match line.strip_prefix("  ") {
            Some(inner) => {
                if !inner.starts_with("  ") {
                    return Ok(false);
                }
                self.lines.push(String::from_str(alloc, inner)?)?;
                Ok(true)
            }
            None => Ok(false),
        }
    }

    /// The lines that they stand for.
    pub fn ended(&self, alloc: Global) -> Result<Vec<String>, Fault> {
        let mut lines = Vec::new(alloc);
        for number in self.first..=self.last {
            for line in self.lines.as_slice() {
                lines.push(line_for(alloc, line.as_str(), number)?)?;
            }
        }
        Ok(lines)
    }
}
