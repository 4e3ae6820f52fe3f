// An output of text.
ghost use Rattle.std.specs.Prelude.{◌≡◌, ◌≢◌, ◌++◌, [], Bool, IfOk, OnOk};
ghost use Rattle.text_spec.specs.View.{message_line};
ghost use Rattle.pipeline_message.specs.Items.{IsSound, IsSoundMessage};

use col_base::{Octets, WantOfMemory};
use config_spec::{DomainSet, OutputConf};
use element_table::Elements;
use message_texts::{MessageTexts, TextFault};
use output_manager::goes;
use pipeline_message::{DataMessage, Msg, SessionNote};
use prepared_lines::Lines;
use std::alloc::{AllocError, Global};
use std::sync::Arc;
use text_forms::{Forms, Maker, TextKind, text_kind};
use viewer_output::{put_head, put_session, put_tick};

/// Makes the text of an output: lines of JSON, or a listing.
#[derive(Drop)]
pub struct TextOutput {
    domains: DomainSet,
    forms: Forms,
    /// A room for a line that is no record's.
    line: Octets,
    /// The sets of a message in a listing, whose own line tells how many records they have.
    sets: Lines,
    /// The text of the message that was put last.
    text: Lines,
}

/// A copy of a set of domains.
fn copy_of(domains: &DomainSet) -> Result<DomainSet, AllocError>
    ensures { IfOk result (λ made. made ≡ domains.now) }
{
    match domains {
        DomainSet::All => Ok(DomainSet::All),
        DomainSet::Only(ranges) => Ok(DomainSet::Only(ranges.clone()?)),
        DomainSet::Except(ranges) => Ok(DomainSet::Except(ranges.clone()?)),
    }
}

/// Puts a line behind a text.
fn put_line(line: &Octets, text: &mut Lines) -> Result<(), WantOfMemory>
    ensures { OnOk result (text.new ≡ text.old ++ line.now) }
{
    text.extend(line.as_slice())?;
    Ok(())
}

impl TextOutput {
    ghost use Rattle.text_output.specs.Output.{IsMadeFor, ListsSets, Stays, note_text, tick_text, data_text, sets_text, alone};

    /// An output of a description, by these elements. None where it writes no text.
    pub fn new(
        alloc: Global,
        output: &OutputConf,
        elements: Arc<Elements>,
    ) -> Result<Option<TextOutput>, AllocError>
        ensures { IfOk result (IsMadeFor output.now elements.value) }
    {
        let Some(kind) = text_kind(output.kind) else {
            return Ok(None);
        };
        Ok(Some(TextOutput {
            domains: copy_of(&output.domains)?,
            forms: Forms::new(alloc, Maker { kind, elements }),
            line: Octets::new(alloc),
            sets: Lines::new(alloc),
            text: Lines::new(alloc),
        }))
    }

    /// Lists a session that opens or closes.
    fn list_note(&mut self, note: SessionNote) -> Result<(), WantOfMemory>
        requires { self.old.text ≡ [] }
        ensures stays { Stays self.old self.new }
        ensures ok { OnOk result (self.new.text ≡ note_text TextKind.View note) }
    {
        self.line.clear();
        put_session(note.key, note.transport, note.opened, &mut self.line)?;
        put_line(&self.line, &mut self.text)
    }

    /// Makes the text of a note. What was kept of a session that closes goes.
    fn put_note(&mut self, note: SessionNote) -> Result<(), WantOfMemory>
        requires empty { self.old.text ≡ [] }
        ensures stays { Stays self.old self.new }
        ensures ok { OnOk result (self.new.text ≡ note_text self.old.forms.kind note) }
    {
        if !note.opened {
            self.forms.close(note.key);
        }
        match self.forms.kind() {
            TextKind::Json { options: _ } => Ok(()),
            TextKind::View => self.list_note(note),
        }
    }

    /// Lists seconds.
    fn list_tick(&mut self, input: u16, seconds: u32) -> Result<(), WantOfMemory>
        requires { self.old.text ≡ [] }
        ensures stays { Stays self.old self.new }
        ensures ok { OnOk result (self.new.text ≡ tick_text TextKind.View input seconds) }
    {
        self.line.clear();
        put_tick(input, seconds, &mut self.line)?;
        put_line(&self.line, &mut self.text)
    }

    /// Makes the text of seconds that passed.
    fn put_seconds(&mut self, input: u16, seconds: u32) -> Result<(), WantOfMemory>
        requires { self.old.text ≡ [] }
        ensures stays { Stays self.old self.new }
        ensures ok { OnOk result (self.new.text ≡ tick_text self.old.forms.kind input seconds) }
    {
        match self.forms.kind() {
            TextKind::Json { options: _ } => Ok(()),
            TextKind::View => self.list_tick(input, seconds),
        }
    }

    /// Makes the lines of a message's records.
    fn put_lines(&mut self, message: &DataMessage) -> Result<(), WantOfMemory>
        requires empty { self.old.text ≡ [] }
        requires sound { IsSound message.now }
        ensures stays { Stays self.old self.new }
        ensures ok { OnOk result ((options : Bool) → self.old.forms.kind ≡ TextKind.Json options → self.new.text ≡ sets_text (TextKind.Json options) self.old.forms message.now) }
    {
        match self.forms.put_sets(message, &mut self.line, &mut self.text) {
            Ok(_) => Ok(()),
            Err(want) => Err(want),
        }
    }

    /// Lists the sets of a message, in place of those of the one before, and answers how many records they have.
    fn list_sets(&mut self, message: &DataMessage) -> Result<u32, WantOfMemory>
        requires { IsSound message.now }
        ensures stays { Stays self.old self.new }
        ensures text { self.new.text ≡ self.old.text }
        ensures ok { IfOk result (ListsSets self.old.forms message.now self.new.sets) }
    {
        self.sets.clear();
        self.forms.put_sets(message, &mut self.line, &mut self.sets)
    }

    /// Puts the line of a message of so many records, and its sets, which are listed already.
    fn put_listed(&mut self, message: &DataMessage, records: u32) -> Result<(), WantOfMemory>
        requires { self.old.text ≡ [] }
        ensures stays { Stays self.old self.new }
        ensures ok { OnOk result (self.new.text ≡ message_line message.now.session message.now.domain message.now.export message.now.seq records ++ self.old.sets) }
    {
        self.line.clear();
        put_head(
            message.session,
            message.domain,
            message.export,
            message.seq,
            records,
            &mut self.line,
        )?;
        put_line(&self.line, &mut self.text)?;
        self.text.extend(self.sets.as_slice())?;
        Ok(())
    }

    /// Lists a message with sets: its own line, and its sets.
    fn list_message(&mut self, message: &DataMessage) -> Result<(), WantOfMemory>
        requires empty { self.old.text ≡ [] }
        requires sound { IsSound message.now }
        requires some { message.now.sets.items ≢ [] }
        ensures stays { Stays self.old self.new }
        ensures ok { OnOk result (self.old.forms.kind ≡ TextKind.View → self.new.text ≡ sets_text TextKind.View self.old.forms message.now) }
    {
        let records = self.list_sets(message)?;
        self.put_listed(message, records)
    }

    /// Makes the text of a message with sets.
    fn put_data(&mut self, message: &DataMessage) -> Result<(), WantOfMemory>
        requires empty { self.old.text ≡ [] }
        requires sound { IsSound message.now }
        requires some { message.now.sets.items ≢ [] }
        ensures stays { Stays self.old self.new }
        ensures ok { OnOk result (self.new.text ≡ sets_text self.old.forms.kind self.old.forms message.now) }
    {
        match self.forms.kind() {
            TextKind::Json { options: _ } => self.put_lines(message),
            TextKind::View => self.list_message(message),
        }
    }

    /// Makes the text of a message. One that doesn't go to the output has none.
    fn put_message(&mut self, message: &Msg) -> Result<(), WantOfMemory>
        requires sound { IsSoundMessage message.now }
        ensures stays { Stays self.old self.new }
        ensures ok { OnOk result (self.new.text ≡ alone self.old.forms self.old.domains message.now) }
    {
        self.text.clear();
        if !goes(&self.domains, message) {
            return Ok(());
        }
        match message {
            Msg::SessionMsg(note) => self.put_note(*note),
            Msg::DataMsg(message) => self.put_data(message),
            Msg::Periodic { input, seconds } => self.put_seconds(*input, *seconds),
            Msg::Terminate => Ok(()),
        }
    }
}

impl MessageTexts for TextOutput {
    ghost use Rattle.text_output.specs.Output.{Makes};

    ghost stands = { λ output table items texts. Makes output table texts };

    ghost last = { λ texts. texts.text };

    fn put(&mut self, message: &Msg) -> Result<(), TextFault> {
        match self.put_message(message) {
            Ok(()) => Ok(()),
            Err(_) => Err(TextFault::NoMemory),
        }
    }

    fn text(&self) -> &[u8] {
        self.text.as_slice()
    }
}
