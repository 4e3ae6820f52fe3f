// Why a line is not taken.
use std::alloc::{AllocError, AllocFailed};
use std::fmt;

/// Why a line is not taken.
#[derive(Debug, Drop)]
pub enum Fault {
    /// What is wanted in its place, or what is wrong with it.
    Wrong(&'static str),
    NoMemory,
}

impl From<AllocError> for Fault {
    fn from(_: AllocError) -> Self {
        Fault::NoMemory
    }
}

impl<T: Drop> From<AllocFailed<T>> for Fault {
    fn from(_: AllocFailed<T>) -> Self {
        Fault::NoMemory
    }
}

impl fmt::Display for Fault {
    fn fmt<W: fmt::Write>(&self, f: &mut fmt::Formatter<W>) -> fmt::Result {
        match self {
            Fault::Wrong(what) => f.write_str(what),
            Fault::NoMemory => f.write_str("memory"),
        }
    }
}

/// A fault, and the line that has it, if it is of one line.
#[derive(Debug, Drop)]
pub struct LineFault {
    /// The number of the line, from 1.
    line: Option<usize>,
    fault: Fault,
}

impl LineFault {
    /// The fault of the line at a place, from 0.
    pub fn new(place: usize, fault: Fault) -> Self {
        LineFault {
            line: Some(place.saturating_add(1)),
            fault,
        }
    }
}

impl From<Fault> for LineFault {
    fn from(fault: Fault) -> Self {
        LineFault { line: None, fault }
    }
}

impl From<AllocError> for LineFault {
    fn from(_: AllocError) -> Self {
        LineFault::from(Fault::NoMemory)
    }
}

impl fmt::Display for LineFault {
    fn fmt<W: fmt::Write>(&self, f: &mut fmt::Formatter<W>) -> fmt::Result {
        let LineFault { line, fault } = self;
        match line {
            Some(line) => write!(f, "line {line}: {fault}"),
            None => write!(f, "{fault}"),
        }
    }
}
