// Octets that have a name in a file of cases.
use crate::fault::Fault;
use crate::part;
use col_base::{Octets, Text};
use std::alloc::Global;

#[derive(Drop)]
struct Piece {
    name: Text,
    octets: Octets,
}

/// Named octets, and octets that are spelled with them.
#[derive(Drop)]
pub struct Pieces {
    rows: Vec<Piece>,
}

/// The octet that stands for the number in a piece that is numbered.
const NUMBER: u8 = b'#';

/// Adds octets with a number in decimal in the place of each `#`.
fn put_numbered(alloc: Global, octets: &[u8], number: u64, into: &mut Octets) -> Result<(), Fault> {
    let digits = number.to_string(alloc)?;
    for octet in octets {
        if *octet == NUMBER {
            into.extend(digits.as_bytes())?;
        } else {
            into.push(*octet)?;
        }
    }
    Ok(())
}

impl Pieces {
    pub fn new(alloc: Global) -> Self {
        Pieces {
            rows: Vec::new(alloc),
        }
    }

    /// Names octets. A name stands once.
    pub fn push(&mut self, alloc: Global, name: &str, octets: Octets) -> Result<(), Fault> {
        if self.find(name).is_some() {
            return Err(Fault::Wrong("the piece is there already"));
        }
        self.rows.push(Piece {
            name: Text::from_str(alloc, name)?,
            octets,
        })?;
        Ok(())
    }

    fn find(&self, name: &str) -> Option<&[u8]> {
        for row in self.rows.as_slice() {
            if row.name.is(name) {
                return Some(row.octets.as_slice());
            }
        }
        None
    }

    fn named(&self, name: &str) -> Result<&[u8], Fault> {
        match self.find(name) {
            Some(octets) => Ok(octets),
            None => Err(Fault::Wrong("no piece has the name")),
        }
    }

    /// Adds a piece, by `NAME`, `NAME*COUNT` or `NAME#FIRST-LAST`.
    fn put_piece(&self, alloc: Global, spelled: &str, into: &mut Octets) -> Result<(), Fault> {
        if let Some((name, count)) = spelled.split_once('*') {
            let octets = self.named(name)?;
            for _ in 0..part::number(count, 65535)? {
                into.extend(octets)?;
            }
            return Ok(());
        }
        let Some((name, numbers)) = spelled.split_once('#') else {
            into.extend(self.named(spelled)?)?;
            return Ok(());
        };
        let octets = self.named(name)?;
        let Some((first, last)) = numbers.split_once('-') else {
            return Err(Fault::Wrong("FIRST-LAST is wanted"));
        };
        for number in part::number(first, 65535)?..=part::number(last, 65535)? {
            put_numbered(alloc, octets, number, into)?;
        }
        Ok(())
    }

    /// The octets that a part spells: hexadecimal digits and pieces behind `@`, joined by `+`.
    pub fn octets(&self, alloc: Global, spelled: &str) -> Result<Octets, Fault> {
        let mut octets = Octets::new(alloc);
        for part in spelled.split('+') {
            match part.strip_prefix('@') {
                Some(piece) => self.put_piece(alloc, piece, &mut octets)?,
                None => octets.extend(part::octets(alloc, part)?.as_slice())?,
            }
        }
        Ok(octets)
    }
}
