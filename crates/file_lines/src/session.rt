// The messages of a session, one after another.
ghost use Rattle.std.specs.Prelude.{◌≡◌, ◌⊎◌, ◌≤◌, ℕ, List, OnOk, OnErr, IfOk, true};
ghost use Rattle.col_base.specs.declared.base.SessionKey.{SessionKey};
ghost use Rattle.ipfix_reader.specs.Walk.{IsSomeMessage};
ghost use Rattle.file_templates.specs.SessionTemplates.{is_kept};
ghost use Rattle.file_lines.specs.Texts.{KeepsFault};
ghost use Rattle.file_lines.specs.Session.{PutsData, TakesSet, TakesMessage, TakesNext};

use crate::form::Forms;
use crate::texts::Texts;
use col_base::WantOfMemory;
use file_templates::Domains;
use ipfix_reader::{Header, Message, RawSet, SetContent, check};
use std::alloc::Global;

/// Puts the lines of a data set of a message with this header. It has none where it has no valid definition, or its
/// body isn't records of it.
fn put_data(
    set: RawSet<'_>,
    header: Header,
    domains: &Domains,
    forms: &mut Forms,
    texts: &mut Texts,
)
    requires { 256 ≤ set.id }
    ensures { PutsData domains.now header.domain set.entry.id set.entry.body.now texts.old texts.new }
{
    if let Some(definition) = domains.find(header, set.id) {
        texts.put_body(forms, header.domain, set.id, definition, set.body);
    }
}

/// Takes a set of a message with this header: its template records count from now on, and the lines of its data
/// records are put.
fn take_set(
    alloc: Global,
    set: RawSet<'_>,
    header: Header,
    domains: &mut Domains,
    forms: &mut Forms,
    texts: &mut Texts,
) -> Result<(), WantOfMemory>
    requires { is_kept domains.old header.domain ≡ true }
    ensures ok { OnOk result (TakesSet set.entry header.domain domains.old domains.new texts.old texts.new) }
    ensures err { OnErr result (texts.new ≡ texts.old) }
{
    match set.content() {
        SetContent::Templates(_) => domains.take_set(alloc, header, set)?,
        SetContent::Data(_) => put_data(set, header, domains, forms, texts),
        SetContent::Reserved => {}
    }
    Ok(())
}

/// Takes the sets of a message with this header, whose domain is kept.
fn take_sets(
    alloc: Global,
    message: Message<'_>,
    header: Header,
    domains: &mut Domains,
    forms: &mut Forms,
    texts: &mut Texts,
) -> Result<(), WantOfMemory>
    requires { is_kept domains.old header.domain ≡ true }
    ensures ok { OnOk result (TakesMessage message.entry.octets.now header.domain domains.old domains.new texts.old texts.new) }
    ensures err { OnErr result (KeepsFault texts.old.fault texts.new.fault) }
{
    for set in message.sets() {
        match take_set(alloc, set, header, domains, forms, texts) {
            Ok(()) => {}
            Err(want) => return Err(want),
        }
    }
    Ok(())
}

/// Takes a message. It has no lines where its domain is crowded out.
fn take_message(
    alloc: Global,
    message: Message<'_>,
    domains: &mut Domains,
    forms: &mut Forms,
    texts: &mut Texts,
) -> Result<(), WantOfMemory>
    requires { IsSomeMessage message.octets.now }
    ensures ok { OnOk result ((key : SessionKey) → TakesNext key message.entry.octets.now domains.old domains.new texts.old texts.new) }
    ensures err { OnErr result (KeepsFault texts.old.fault texts.new.fault) }
{
    let header = message.header();
    match domains.admit(alloc, header) {
        Ok(true) => take_sets(alloc, message, header, domains, forms, texts),
        Ok(false) => Ok(()),
        Err(want) => Err(want),
    }
}

/// Takes the octets of a message. They have no lines where they are malformed.
pub fn take_octets(
    alloc: Global,
    octets: &[u8],
    domains: &mut Domains,
    forms: &mut Forms,
    texts: &mut Texts,
) -> Result<(), WantOfMemory>
    ensures ok { OnOk result ((key : SessionKey) → TakesNext key octets.now domains.old domains.new texts.old texts.new) }
    ensures err { OnErr result (KeepsFault texts.old.fault texts.new.fault) }
{
    match check(octets) {
        Ok(message) => take_message(alloc, message, domains, forms, texts),
        Err(_) => Ok(()),
    }
}
