// A case: an intermediate, a record, and what becomes of it.
use std::alloc::Global;

/// What becomes of a record.
#[derive(Drop)]
pub enum Fate {
    Kept,
    Dropped,
    /// It has these octets then.
    Changed(Vec<u8>),
}

/// An intermediate as a description has it, the field specifiers of a definition, a record of it, and its fate.
#[derive(Drop)]
pub struct Case<'a> {
    pub specifiers: Vec<u8>,
    pub octets: Vec<u8>,
    pub fate: Fate,
    pub intermediate: &'a str,
}

impl<'a> Case<'a> {
    /// The case of a line, as `SPECIFIERS RECORD FATE INTERMEDIATE`.
    pub fn read(alloc: Global, line: &'a str) -> Option<Case<'a>> {
        let (specifiers, rest) = line.split_once(' ')?;
        let (octets, rest) = rest.split_once(' ')?;
        let (fate, intermediate) = rest.split_once(' ')?;
        let fate = match fate {
            "kept" => Fate::Kept,
            "dropped" => Fate::Dropped,
            changed => Fate::Changed(hex::decode(alloc, changed).ok()?),
        };
        Some(Case {
            specifiers: hex::decode(alloc, specifiers).ok()?,
            octets: hex::decode(alloc, octets).ok()?,
            fate,
            intermediate,
        })
    }
}
