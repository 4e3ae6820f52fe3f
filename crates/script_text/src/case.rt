// A case: a script, and what is to come of it.
use crate::fault::Fault;
use crate::given::Given;
use crate::script::Script;
use crate::wanted::Wanted;
use std::alloc::{AllocError, Global};

/// A script with a name, and what its call is to leave, or what is to be printed of it.
#[derive(Drop)]
pub struct Case {
    pub name: String,
    pub script: Script,
    pub wanted: Vec<Wanted>,
    pub given: Given,
}

impl Case {
    /// A case that wants nothing yet.
    pub fn new(alloc: Global, name: &str) -> Result<Self, Fault> {
        Ok(Case {
            name: String::from_str(alloc, name)?,
            script: Script::new(alloc),
            wanted: Vec::new(alloc),
            given: Given::new(alloc),
        })
    }

    /// One thing more that is wanted.
    pub fn want(&mut self, wanted: Wanted) -> Result<(), Fault> {
        self.wanted.push(wanted)?;
        Ok(())
    }
}

/// What was found of a case: a line for each thing that came otherwise.
#[derive(Drop)]
pub struct Report {
    name: String,
    text: String,
}

impl Report {
    /// Nothing was found yet of the case of this name.
    pub fn new(alloc: Global, name: &str) -> Result<Self, AllocError> {
        Ok(Report {
            name: String::from_str(alloc, name)?,
            text: String::new(alloc),
        })
    }

    /// Tells what is otherwise, if something is.
    pub fn tell(&mut self, difference: Option<String>) -> Result<(), AllocError> {
        let Some(difference) = difference else {
            return Ok(());
        };
        self.text.push_str("case ")?;
        self.text.push_str(self.name.as_str())?;
        self.text.push_str(": ")?;
        self.text.push_str(difference.as_str())?;
        self.text.push_str("\n")
    }

    /// The lines.
    pub fn lines(&self) -> &str {
        self.text.as_str()
    }
}

/// Plays cases.
pub trait Player {
    /// Plays a case, and tells what came otherwise. The fault says why the case can't be played.
    fn play(&self, alloc: Global, case: Case, report: &mut Report) -> Result<(), Fault>;
}
