// The lines of messages.
use col_base::{Kind, Octets};
use pipeline_message::{DataMessage, DataSet, Msg, Place, SessionNote};
use script_text::{hexadecimal, key_text, transport_word};
use std::alloc::{AllocError, Global};
use std::fmt::Write;
use template_def::{Definition, FieldSpec};

/// The word of a kind of definition.
fn kind_word(kind: Kind) -> &'static str {
    match kind {
        Kind::Template => "template",
        Kind::Options => "options",
    }
}

/// The line of a session that opens or closes.
fn put_note(alloc: Global, text: &mut String, note: &SessionNote) -> Result<(), AllocError> {
    let key = key_text(alloc, note.key)?;
    let word = if note.opened { "open" } else { "close" };
    let transport = transport_word(note.transport);
    writeln!(text, "{word} {key} {transport}")
}

/// A field of a definition.
fn put_field(text: &mut String, field: FieldSpec) -> Result<(), AllocError> {
    let FieldSpec { pen, id, len } = field;
    write!(text, " {pen}/{id}/{len}")
}

/// A definition: its kind, its scope fields and all fields.
fn put_definition(text: &mut String, definition: &Definition) -> Result<(), AllocError> {
    let kind = kind_word(definition.kind());
    let scope = definition.scope();
    write!(text, " {kind} {scope}")?;
    for field in definition.fields() {
        put_field(text, *field)?;
    }
    Ok(())
}

/// The octets at a place, None where it runs past their end.
fn octets_at(octets: &[u8], place: Place) -> Option<&[u8]> {
    let start = place.start as usize;
    let end = start.checked_add(place.len as usize)?;
    octets.get(start..end)
}

/// The line of a record: where it begins, and its octets.
fn put_record(
    alloc: Global,
    text: &mut String,
    octets: &Octets,
    place: Place,
) -> Result<(), AllocError> {
    let found = match octets_at(octets.as_slice(), place) {
        Some(octets) => hexadecimal(alloc, octets)?,
        None => String::from_str(alloc, "outside")?,
    };
    let start = place.start;
    writeln!(text, "    record {start} {found}")
}

/// The lines of a set: its definition, and its records.
fn put_set(
    alloc: Global,
    text: &mut String,
    octets: &Octets,
    set: &DataSet,
) -> Result<(), AllocError> {
    let template = set.template;
    write!(text, "  set {template}")?;
    put_definition(text, &set.def)?;
    writeln!(text, "")?;
    for place in set.places.as_slice() {
        put_record(alloc, text, octets, *place)?;
    }
    Ok(())
}

/// The lines of a decoded message: its numbers and those of its octets, and its sets.
fn put_data(alloc: Global, text: &mut String, message: &DataMessage) -> Result<(), AllocError> {
    let key = key_text(alloc, message.session)?;
    let domain = message.domain;
    let export = message.export;
    let sequence = message.seq;
    let count = message.octets.len();
    writeln!(
        text,
        "message {key} domain {domain} export {export} sequence {sequence} octets {count}"
    )?;
    for set in message.sets.as_slice() {
        put_set(alloc, text, &message.octets, set)?;
    }
    Ok(())
}

/// The lines of a message.
pub fn put_message(alloc: Global, text: &mut String, message: &Msg) -> Result<(), AllocError> {
    match message {
        Msg::SessionMsg(note) => put_note(alloc, text, note),
        Msg::DataMsg(message) => put_data(alloc, text, message),
        Msg::Periodic { input, seconds } => writeln!(text, "tick {input} {seconds}"),
        Msg::Terminate => writeln!(text, "terminate"),
    }
}
