// The lines of a listing.
use col_base::{Kind, Octets, SessionKey, Transport, WantOfMemory};
use element_table::Elements;
use record_iter::records;
use std::alloc::Global;
use template_def::{Definition, well_formed};
use viewer_output::{put_head, put_session, put_set, put_tick, put_view_record};

/// The most octets of the specifiers of a template record.
const MOST: usize = 65500;

/// The numbers of a message.
#[derive(Clone, Copy)]
pub struct Head {
    session: SessionKey,
    domain: u32,
    export: u32,
    seq: u32,
    records: u32,
}

/// What a line is made of.
#[derive(Drop)]
pub enum Listed {
    Opened(SessionKey, Transport),
    Closed(SessionKey),
    Tick(u16, u32),
    Message(Head),
    Set(u16, u32),
    /// The field specifiers of a template record, and a record.
    Record(Vec<u8>, Vec<u8>),
}

/// The first word, and what follows it.
fn first_word(line: &str) -> Option<(&str, &str)> {
    line.split_once(' ')
}

/// A number of 16 bits, and what follows it.
fn small(line: &str) -> Option<(u16, &str)> {
    let (word, rest) = first_word(line)?;
    Some((word.parse::<u16>().ok()?, rest))
}

/// A number of 32 bits, and what follows it.
fn large(line: &str) -> Option<(u32, &str)> {
    let (word, rest) = first_word(line)?;
    Some((word.parse::<u32>().ok()?, rest))
}

/// A session, and what follows it.
fn session_of(line: &str) -> Option<(SessionKey, &str)> {
    let (input, rest) = small(line)?;
    let (number, rest) = large(rest)?;
    Some((SessionKey { input, number }, rest))
}

/// A transport, and what follows it.
fn transport_of(line: &str) -> Option<(Transport, &str)> {
    let (word, rest) = first_word(line)?;
    let transport = match word {
        "tcp" => Transport::Tcp,
        "udp" => Transport::Udp,
        "file" => Transport::File,
        _ => return None,
    };
    Some((transport, rest))
}

/// Octets in hexadecimal, and what follows them.
fn octets_of(alloc: Global, line: &str) -> Option<(Vec<u8>, &str)> {
    let (word, rest) = first_word(line)?;
    Some((hex::decode(alloc, word).ok()?, rest))
}

/// The numbers of a message, and what follows them.
fn head_of(line: &str) -> Option<(Head, &str)> {
    let (session, rest) = session_of(line)?;
    let (domain, rest) = large(rest)?;
    let (export, rest) = large(rest)?;
    let (seq, rest) = large(rest)?;
    let (records, rest) = large(rest)?;
    let head = Head {
        session,
        domain,
        export,
        seq,
        records,
    };
    Some((head, rest))
}

impl Listed {
    /// What a line is made of, and that line.
    pub fn read(alloc: Global, line: &str) -> Option<(Listed, &str)> {
        let (form, rest) = first_word(line)?;
        match form {
            "open" => {
                let (key, rest) = session_of(rest)?;
                let (transport, rest) = transport_of(rest)?;
                Some((Listed::Opened(key, transport), rest))
            }
            "close" => {
                let (key, rest) = session_of(rest)?;
                Some((Listed::Closed(key), rest))
            }
            "tick" => {
                let (input, rest) = small(rest)?;
                let (seconds, rest) = large(rest)?;
                Some((Listed::Tick(input, seconds), rest))
            }
            "message" => {
                let (head, rest) = head_of(rest)?;
                Some((Listed::Message(head), rest))
            }
            "set" => {
                let (template, rest) = small(rest)?;
                let (records, rest) = large(rest)?;
                Some((Listed::Set(template, records), rest))
            }
            "record" => {
                let (specifiers, rest) = octets_of(alloc, rest)?;
                let (rec, rest) = octets_of(alloc, rest)?;
                Some((Listed::Record(specifiers, rec), rest))
            }
            _ => None,
        }
    }

    /// Appends the line.
    pub fn put(
        &self,
        alloc: Global,
        elements: &Elements,
        out: &mut Octets,
    ) -> Result<(), WantOfMemory> {
        match self {
            Listed::Opened(key, transport) => put_session(*key, *transport, true, out),
            Listed::Closed(key) => put_session(*key, Transport::File, false, out),
            Listed::Tick(input, seconds) => put_tick(*input, *seconds, out),
            Listed::Message(head) => put_message(*head, out),
            Listed::Set(template, records) => put_set(*template, *records, out),
            Listed::Record(specifiers, rec) => put_body(alloc, elements, specifiers, rec, out),
        }
    }
}

/// Appends the line of a message.
fn put_message(head: Head, out: &mut Octets) -> Result<(), WantOfMemory> {
    put_head(
        head.session,
        head.domain,
        head.export,
        head.seq,
        head.records,
        out,
    )
}

/// Appends the lines of a body's records.
fn put_records(
    alloc: Global,
    elements: &Elements,
    def: &Definition,
    body: &[u8],
    out: &mut Octets,
) -> Result<(), WantOfMemory> {
    let Ok(walk) = records(def, body) else {
        return Ok(());
    };
    for rec in walk {
        put_view_record(alloc, elements, def, rec, out)?;
    }
    Ok(())
}

/// Appends the lines of the records of a body, and nothing where the specifiers aren't well formed.
fn put_body(
    alloc: Global,
    elements: &Elements,
    specifiers: &[u8],
    body: &[u8],
    out: &mut Octets,
) -> Result<(), WantOfMemory> {
    if specifiers.len() > MOST || !well_formed(0, specifiers) {
        return Ok(());
    }
    let def = Definition::read(alloc, Kind::Template, 0, specifiers)?;
    put_records(alloc, elements, &def, body, out)
}
