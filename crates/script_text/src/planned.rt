// The sources and sinks of a script.
ghost use Rattle.std.specs.Prelude.{IsTrue};
ghost use Rattle.std.specs.List.{list_all};
ghost use Rattle.site_io.specs.Script.{fits};

use crate::fault::Fault;
use col_base::Text;
use site_io::{MemorySink, MemorySource, NamedSink, NamedSource, Scripted, SinkFail};
use std::alloc::{AllocError, Global};

/// A place with what its source gives, and the calls of it that fail.
#[derive(Drop)]
pub struct PlannedSource {
    pub place: Text,
    events: Vec<Scripted>,
    fails: Vec<u64>,
    ghost lengths: { IsTrue (list_all fits events.items) },
}

impl PlannedSource {
    /// A source that gives nothing.
    pub fn new(alloc: Global, place: Text) -> Self {
        PlannedSource {
            place,
            events: Vec::new(alloc),
            fails: Vec::new(alloc),
        }
    }

    /// Adds an event behind the others.
    pub fn push(&mut self, event: Scripted) -> Result<(), Fault>
        requires { IsTrue (fits event) }
    {
        self.events.push(event)?;
        Ok(())
    }

    /// Plans which calls fail.
    pub fn plan(&mut self, fails: Vec<u64>) {
        self.fails = fails;
    }

    pub fn into_row(self) -> NamedSource {
        let PlannedSource {
            place,
            events,
            fails,
        } = self;
        NamedSource {
            place,
            source: MemorySource::new(events, fails),
        }
    }
}

/// A sink name with its calls that fail.
#[derive(Drop)]
pub struct PlannedSink {
    pub name: Text,
    pub fails: Vec<SinkFail>,
}

impl PlannedSink {
    pub fn into_row(self, alloc: Global) -> NamedSink {
        let PlannedSink { name, fails } = self;
        NamedSink {
            name,
            sink: MemorySink::new(alloc, fails),
        }
    }
}

/// The sources as a Site takes them.
pub fn source_rows(
    alloc: Global,
    sources: Vec<PlannedSource>,
) -> Result<Vec<NamedSource>, AllocError> {
    let mut rows = Vec::new(alloc);
    for source in sources {
        rows.push(source.into_row())?;
    }
    Ok(rows)
}

/// The sinks as a Site takes them, with one of the empty name for what is said.
pub fn sink_rows(
    alloc: Global,
    sinks: Vec<PlannedSink>,
    say_fails: Vec<SinkFail>,
) -> Result<Vec<NamedSink>, AllocError> {
    let mut rows = Vec::new(alloc);
    let said = PlannedSink {
        name: Text::from_str(alloc, "")?,
        fails: say_fails,
    };
    rows.push(said.into_row(alloc))?;
    for sink in sinks {
        rows.push(sink.into_row(alloc))?;
    }
    Ok(rows)
}
