// A script.
use crate::event::event_of;
use crate::fault::{Fault, LineFault};
use crate::part::{calls, failing_writes, octets, parts_of};
use crate::planned::{PlannedSink, PlannedSource, sink_rows, source_rows};
use col_base::Text;
use site_io::{MemorySite, NamedText, SinkFail};
use std::alloc::{AllocError, Global};

/// The words of a call, and the outside that it finds.
#[derive(Drop)]
pub struct Script {
    pub words: Vec<String>,
    pub texts: Vec<NamedText>,
    pub sources: Vec<PlannedSource>,
    pub sinks: Vec<PlannedSink>,
    pub say_fails: Vec<SinkFail>,
}

impl Script {
    /// A call without words, which finds nothing.
    pub fn new(alloc: Global) -> Self {
        Script {
            words: Vec::new(alloc),
            texts: Vec::new(alloc),
            sources: Vec::new(alloc),
            sinks: Vec::new(alloc),
            say_fails: Vec::new(alloc),
        }
    }

    /// The script of a text.
    pub fn read(alloc: Global, text: &str) -> Result<Self, LineFault> {
        let mut script = Script::new(alloc);
        for (place, line) in text.lines().enumerate() {
            script
                .take_line(alloc, line)
                .map_err(|fault| LineFault::new(place, fault))?;
        }
        Ok(script)
    }

    /// The words of the call, and a Site in memory with what it finds.
    pub fn into_call(self, alloc: Global) -> Result<(Vec<String>, MemorySite), AllocError> {
        let Script {
            words,
            texts,
            sources,
            sinks,
            say_fails,
        } = self;
        let sources = source_rows(alloc, sources)?;
        let sinks = sink_rows(alloc, sinks, say_fails)?;
        Ok((words, MemorySite::new(alloc, texts, sources, sinks)))
    }

    /// Takes the next line.
    pub fn take_line(&mut self, alloc: Global, line: &str) -> Result<(), Fault> {
        if let Some(event) = line.strip_prefix("  ") {
            return self.take_event(alloc, event);
        }
        let parts = parts_of(alloc, line)?;
        match parts.as_slice() {
            ["word"] => self.push_word(alloc, ""),
            ["word", word] => self.push_word(alloc, word),
            ["text", name, given] => self.push_text(alloc, name, given),
            ["source", place] => self.push_source(alloc, place),
            ["fails", place, numbers @ ..] => self.plan_source(place, calls(alloc, numbers)?),
            ["sink", name] => self.push_sink(alloc, name),
            ["sinkfails", name, fails @ ..] => {
                self.plan_sink(name, failing_writes(alloc, fails)?)
            }
            ["sayfails", fails @ ..] => {
                self.say_fails = failing_writes(alloc, fails)?;
                Ok(())
            }
            _ => Err(Fault::Wrong("a line of a script is wanted")),
        }
    }

    /// Adds a word to the call.
    pub fn push_word(&mut self, alloc: Global, word: &str) -> Result<(), Fault> {
        self.words.push(String::from_str(alloc, word)?)?;
        Ok(())
    }

    fn push_text(&mut self, alloc: Global, name: &str, given: &str) -> Result<(), Fault> {
        self.texts.push(NamedText {
            name: Text::from_str(alloc, name)?,
            octets: octets(alloc, given)?,
        })?;
        Ok(())
    }

    fn push_source(&mut self, alloc: Global, place: &str) -> Result<(), Fault> {
        let place = Text::from_str(alloc, place)?;
        self.sources.push(PlannedSource::new(alloc, place))?;
        Ok(())
    }

    fn take_event(&mut self, alloc: Global, line: &str) -> Result<(), Fault> {
        let event = event_of(alloc, line)?;
        match self.sources.last_mut() {
            Some(source) => source.push(event),
            None => Err(Fault::Wrong("a source is wanted before its events")),
        }
    }

    fn plan_source(&mut self, place: &str, fails: Vec<u64>) -> Result<(), Fault> {
        for source in self.sources.as_mut_slice() {
            if source.place.is(place) {
                source.plan(fails);
                return Ok(());
            }
        }
        Err(Fault::Wrong("the source is wanted before its failing calls"))
    }

    fn push_sink(&mut self, alloc: Global, name: &str) -> Result<(), Fault> {
        self.sinks.push(PlannedSink {
            name: Text::from_str(alloc, name)?,
            fails: Vec::new(alloc),
        })?;
        Ok(())
    }

    fn plan_sink(&mut self, name: &str, fails: Vec<SinkFail>) -> Result<(), Fault> {
        for sink in self.sinks.as_mut_slice() {
            if sink.name.is(name) {
                sink.fails = fails;
                return Ok(());
            }
        }
        Err(Fault::Wrong("the sink is wanted before its failing calls"))
    }
}
