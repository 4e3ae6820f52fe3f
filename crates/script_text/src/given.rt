// What inputs are to give.
use crate::fault::Fault;
use std::alloc::{AllocError, Global};

/// The lines that are to be printed of the inputs of a script: all of them, in order, or some that are to be among them.
#[derive(Drop)]
pub struct Given {
    all: Vec<String>,
    some: Vec<String>,
}

/// The first place where lines are others than those that are wanted, with both.
fn first_difference(
    alloc: Global,
    wanted: &[String],
    found: &str,
) -> Result<Option<String>, AllocError> {
    let mut lines = found.lines();
    let mut number: usize = 0;
    for line in wanted {
        number = number.saturating_add(1);
        let next = lines.next().unwrap_or("no more");
        if next != line.as_str() {
            return Ok(Some(format!(in alloc; "line {number}: expected {line}, found {next}")?));
        }
    }
    match lines.next() {
        Some(line) => Ok(Some(format!(in alloc; "expected no more, found {line}")?)),
        None => Ok(None),
    }
}

/// Whether a line is among those of a text.
fn has_line(text: &str, line: &str) -> bool {
    text.lines().any(|each| each == line)
}

impl Given {
    /// Nothing is wanted.
    pub fn new(alloc: Global) -> Self {
        Given {
            all: Vec::new(alloc),
            some: Vec::new(alloc),
        }
    }

    pub fn is_empty(&self) -> bool {
        self.all.is_empty() && self.some.is_empty()
    }

    /// One line more of all.
    pub fn push(&mut self, alloc: Global, line: &str) -> Result<(), Fault> {
        self.all.push(String::from_str(alloc, line)?)?;
        Ok(())
    }

    /// One line more that is to be among them.
    pub fn push_some(&mut self, alloc: Global, line: &str) -> Result<(), Fault> {
        self.some.push(String::from_str(alloc, line)?)?;
        Ok(())
    }

    /// What lines have otherwise, None where they have all that is wanted.
    pub fn differs(&self, alloc: Global, found: &str) -> Result<Option<String>, AllocError> {
        for line in self.some.as_slice() {
            if !has_line(found, line.as_str()) {
                return Ok(Some(format!(in alloc; "expected a line {line}")?));
            }
        }
        if self.all.is_empty() {
            return Ok(None);
        }
        first_difference(alloc, self.all.as_slice(), found)
    }
}
