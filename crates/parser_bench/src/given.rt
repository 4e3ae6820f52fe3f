// The messages that are brought.
use col_base::Octets;
use std::alloc::{AllocError, Global};

/// A kind of message.
#[derive(Clone, Copy, PartialEq, Eq)]
pub enum Given {
    /// 1,400 octets: 115 records of three fields of fixed length.
    Fixed,
    /// One such record.
    One,
    /// No set.
    Bare,
    /// 1,400 octets: 115 records of three fields, the last of which varies in length.
    Varying,
}

/// The most records of a message, with which it has 1,400 octets.
const MOST: u16 = 115;

/// How many octets each record has.
const RECORD: u16 = 12;

/// A template of three fields of four octets each, with ID 256, and one whose third field varies in length, with ID 257.
pub const TEMPLATES: [u8; 52] = [
    0, 10, 0, 52, 0, 0, 0, 100, 0, 0, 0, 0, 0, 0, 0, 1, //
    0, 2, 0, 36, 1, 0, 0, 3, 0, 8, 0, 4, 0, 12, 0, 4, 0, 1, 0, 4, //
    1, 1, 0, 3, 0, 8, 0, 4, 0, 12, 0, 4, 0, 82, 255, 255,
];

/// One record: two addresses, and a count or a name of three letters behind its length.
const VALUES: [u8; 12] = [10, 0, 0, 1, 10, 0, 0, 2, 3, 97, 98, 99];

impl Given {
    pub const ALL: [Given; 4] = [Given::Fixed, Given::One, Given::Bare, Given::Varying];

    pub fn name(self) -> &'static str {
        match self {
            Given::Fixed => "fixed",
            Given::One => "one",
            Given::Bare => "bare",
            Given::Varying => "varying",
        }
    }

    /// The kind of this name.
    pub fn named(name: &str) -> Option<Given> {
        for given in Given::ALL {
            if given.name() == name {
                return Some(given);
            }
        }
        None
    }

    /// How many records it has.
    fn records(self) -> u16 {
        match self {
            Given::Fixed | Given::Varying => MOST,
            Given::One => 1,
            Given::Bare => 0,
        }
    }

    /// The ID of its template.
    fn template(self) -> u16 {
        match self {
            Given::Fixed | Given::One | Given::Bare => 256,
            Given::Varying => 257,
        }
    }

    /// Its octets.
    pub fn octets(self, alloc: Global) -> Result<Octets, AllocError> {
        let records = self.records().min(MOST);
        let body = records * RECORD;
        let mut octets = Octets::new(alloc);
        octets.extend(&[0, 10])?;
        if records == 0 {
            octets.extend(&[0, 16, 0, 0, 0, 100, 0, 0, 0, 0, 0, 0, 0, 1])?;
            return Ok(octets);
        }
        octets.extend(&(body + 20).to_be_bytes())?;
        octets.extend(&[0, 0, 0, 100, 0, 0, 0, 0, 0, 0, 0, 1])?;
        octets.extend(&self.template().to_be_bytes())?;
        octets.extend(&(body + 4).to_be_bytes())?;
        for _ in 0..records {
            octets.extend(&VALUES)?;
        }
        Ok(octets)
    }
}
