// A case: what a text is made of, and that text.
use crate::listing::Listed;
use col_base::{Octets, WantOfMemory};
use element_table::{ElementType, Elements};
use std::alloc::Global;
use value_text::{put_name, put_value};

/// What a text is made of.
#[derive(Drop)]
enum Given {
    /// A value, and its type if it has one.
    Value(Option<ElementType>, Vec<u8>),
    /// An element by its enterprise number and its ID.
    Name(u32, u16),
    /// A line of a listing, without the line feed at its end.
    Line(Listed),
}

/// What a text is made of, and that text.
#[derive(Drop)]
pub struct Case<'a> {
    given: Given,
    text: &'a str,
}

/// The type of a name, None where it is no type's. `unknown` stands for none.
fn kind_of(name: &str) -> Option<Option<ElementType>> {
    Some(match name {
        "unknown" => None,
        "octetArray" => Some(ElementType::OctetArray),
        "unsigned8" => Some(ElementType::Unsigned8),
        "unsigned16" => Some(ElementType::Unsigned16),
        "unsigned32" => Some(ElementType::Unsigned32),
        "unsigned64" => Some(ElementType::Unsigned64),
        "signed8" => Some(ElementType::Signed8),
        "signed16" => Some(ElementType::Signed16),
        "signed32" => Some(ElementType::Signed32),
        "signed64" => Some(ElementType::Signed64),
        "float32" => Some(ElementType::Float32),
        "float64" => Some(ElementType::Float64),
        "boolean" => Some(ElementType::Boolean),
        "macAddress" => Some(ElementType::MacAddress),
        "string" => Some(ElementType::Str),
        "dateTimeSeconds" => Some(ElementType::DateTimeSeconds),
        "dateTimeMilliseconds" => Some(ElementType::DateTimeMilliseconds),
        "dateTimeMicroseconds" => Some(ElementType::DateTimeMicroseconds),
        "dateTimeNanoseconds" => Some(ElementType::DateTimeNanoseconds),
        "ipv4Address" => Some(ElementType::Ipv4Address),
        "ipv6Address" => Some(ElementType::Ipv6Address),
        "basicList" => Some(ElementType::BasicList),
        "subTemplateList" => Some(ElementType::SubTemplateList),
        "subTemplateMultiList" => Some(ElementType::SubTemplateMultiList),
        _ => return None,
    })
}

/// Octets in hexadecimal, `-` where there are none.
fn octets_of(alloc: Global, word: &str) -> Option<Vec<u8>> {
    if word == "-" {
        return Some(Vec::new(alloc));
    }
    hex::decode(alloc, word).ok()
}

/// Appends a line without the line feed at its end.
fn put_line(
    alloc: Global,
    listed: &Listed,
    elements: &Elements,
    out: &mut Octets,
) -> Result<(), WantOfMemory> {
    listed.put(alloc, elements, out)?;
    let end = out.as_slice().strip_suffix(b"\n").map(|line| line.len());
    if let Some(end) = end {
        out.truncate(end);
    }
    Ok(())
}

impl<'a> Case<'a> {
    /// The case of a line, as `value TYPE OCTETS TEXT`, `name PEN ID TEXT`, or `view FORM WORD .. TEXT`.
    pub fn read(alloc: Global, line: &'a str) -> Option<Case<'a>> {
        let (form, rest) = line.split_once(' ')?;
        if form == "view" {
            let (listed, text) = Listed::read(alloc, rest)?;
            return Some(Case {
                given: Given::Line(listed),
                text,
            });
        }
        let (first, rest) = rest.split_once(' ')?;
        let (second, text) = rest.split_once(' ')?;
        let given = match form {
            "value" => Given::Value(kind_of(first)?, octets_of(alloc, second)?),
            "name" => Given::Name(first.parse::<u32>().ok()?, second.parse::<u16>().ok()?),
            _ => return None,
        };
        Some(Case { given, text })
    }

    /// The text that is wanted.
    pub fn text(&self) -> &str {
        self.text
    }

    /// Appends the text that is made.
    pub fn put(
        &self,
        alloc: Global,
        elements: &Elements,
        out: &mut Octets,
    ) -> Result<(), WantOfMemory> {
        match &self.given {
            Given::Value(kind, octets) => put_value(*kind, octets, out),
            Given::Name(pen, id) => put_name(elements, *pen, *id, out),
            Given::Line(listed) => put_line(alloc, listed, elements, out),
        }
    }
}
