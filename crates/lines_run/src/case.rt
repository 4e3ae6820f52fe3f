// A case: a definition, and a body of its records.
use col_base::Kind;
use std::alloc::Global;

/// A definition's kind and specifiers, a body, and by which table and in what output its records are printed.
#[derive(Drop)]
pub struct Case<'a> {
    pub options: bool,
    pub has_table: bool,
    pub kind: Kind,
    pub fields: &'a str,
    pub body: Vec<u8>,
}

/// Octets in hexadecimal, `-` where there are none.
fn octets_of(alloc: Global, word: &str) -> Option<Vec<u8>> {
    if word == "-" {
        return Some(Vec::new(alloc));
    }
    hex::decode(alloc, word).ok()
}

/// A number of two octets behind the others.
fn put_number(number: u16, octets: &mut Vec<u8>) -> Option<()> {
    octets.push((number / 256) as u8).ok()?;
    octets.push((number % 256) as u8).ok()
}

/// The specifier of a field, `PEN/ID/LENGTH`, behind the others.
fn put_specifier(word: &str, specifiers: &mut Vec<u8>) -> Option<()> {
    let (pen, rest) = word.split_once('/')?;
    let (id, len) = rest.split_once('/')?;
    let pen = pen.parse::<u32>().ok()?;
    let id = id.parse::<u16>().ok()?;
    if id >= 32768 {
        return None;
    }
    let len = len.parse::<u16>().ok()?;
    if pen == 0 {
        put_number(id, specifiers)?;
        return put_number(len, specifiers);
    }
    put_number(id + 32768, specifiers)?;
    put_number(len, specifiers)?;
    put_number((pen / 65536) as u16, specifiers)?;
    put_number((pen % 65536) as u16, specifiers)
}

impl<'a> Case<'a> {
    /// The case of a line, as `case OPTIONS TABLE KIND FIELDS BODY`.
    pub fn read(alloc: Global, line: &'a str) -> Option<Case<'a>> {
        let (form, rest) = line.split_once(' ')?;
        let (options, rest) = rest.split_once(' ')?;
        let (table, rest) = rest.split_once(' ')?;
        let (kind, rest) = rest.split_once(' ')?;
        let (fields, body) = rest.split_once(' ')?;
        if form != "case" {
            return None;
        }
        Some(Case {
            options: options == "options",
            has_table: table == "table",
            kind: if kind == "entry" {
                Kind::Template
            } else {
                Kind::Options
            },
            fields,
            body: octets_of(alloc, body)?,
        })
    }

    /// The field specifiers, as a template record has them.
    pub fn specifiers(&self, alloc: Global) -> Option<Vec<u8>> {
        let mut specifiers = Vec::new(alloc);
        for word in self.fields.split(',') {
            put_specifier(word, &mut specifiers)?;
        }
        Some(specifiers)
    }
}
