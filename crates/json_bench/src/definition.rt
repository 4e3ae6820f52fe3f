// A definition out of words.
use col_base::Kind;
use std::alloc::{AllocError, Global};
use template_def::{Definition, well_formed};

/// The most octets of the specifiers of a template record.
const MOST: usize = 65500;

/// A number of two octets behind the others.
fn put_number(number: u16, octets: &mut Vec<u8>) -> Option<()> {
    octets.push((number / 256) as u8).ok()?;
    octets.push((number % 256) as u8).ok()
}

/// The specifier of a field, `PEN/ID/LENGTH`, behind the others.
fn put_specifier(word: &str, specifiers: &mut Vec<u8>) -> Option<()> {
    let (pen, rest) = word.split_once('/')?;
    let (id, len) = rest.split_once('/')?;
    let pen = pen.parse::<u32>().ok()?;
    let id = id.parse::<u16>().ok()?;
    if id >= 32768 {
        return None;
    }
    let len = len.parse::<u16>().ok()?;
    if pen == 0 {
        put_number(id, specifiers)?;
        return put_number(len, specifiers);
    }
    put_number(id + 32768, specifiers)?;
    put_number(len, specifiers)?;
    put_number((pen / 65536) as u16, specifiers)?;
    put_number((pen % 65536) as u16, specifiers)
}

/// The definition of a kind and of fields, None where the words are none.
pub fn definition_of(
    alloc: Global,
    kind: &str,
    fields: &str,
) -> Result<Option<Definition>, AllocError> {
    let (kind, scope) = if kind == "entry" {
        (Kind::Template, 0)
    } else {
        (Kind::Options, 1)
    };
    let mut specifiers = Vec::new(alloc);
    for word in fields.split(',') {
        if put_specifier(word, &mut specifiers).is_none() {
            return Ok(None);
        }
    }
    if specifiers.len() > MOST || !well_formed(scope, &specifiers) {
        return Ok(None);
    }
    let made = Definition::read(alloc, kind, scope, &specifiers).map_err(|_| AllocError)?;
    Ok(Some(made))
}
