// Octets that stand in several lines.
use crate::fault::Fault;
use crate::part::{hexadecimal, parts_of};
use crate::pieces::Pieces;
use col_base::Octets;
use std::alloc::{AllocError, Global};

/// A line whose last part is `|`, and the octets of the lines behind it, which stand for that part.
#[derive(Drop)]
pub struct Block {
    head: String,
    octets: Octets,
}

impl Block {
    /// The block that a line begins, None where it begins none.
    pub fn begun(alloc: Global, line: &str) -> Result<Option<Self>, Fault> {
        match line.strip_suffix(" |") {
            Some(head) => Ok(Some(Block {
                head: String::from_str(alloc, head)?,
                octets: Octets::new(alloc),
            })),
            None => Ok(None),
        }
    }

    /// Takes the next line, and answers whether it belongs to the block: `  |` and a text with its line feed,
    /// `  >` and a text without one, `  :` and octets in hexadecimal with spaces between them, or a piece, as
    /// `  @NAME`.
    pub fn takes(&mut self, alloc: Global, pieces: &Pieces, line: &str) -> Result<bool, Fault> {
        let Some(marked) = line.strip_prefix("  ") else {
            return Ok(false);
        };
        if let Some(text) = marked.strip_prefix('|') {
            self.octets.extend(text.as_bytes())?;
            self.octets.push(b'\n')?;
        } else if let Some(text) = marked.strip_prefix('>') {
            self.octets.extend(text.as_bytes())?;
        } else if let Some(spelled) = marked.strip_prefix(':') {
            for part in parts_of(alloc, spelled)? {
                self.put(alloc, pieces, part)?;
            }
        } else if marked.starts_with('@') {
            self.put(alloc, pieces, marked)?;
        } else {
            return Ok(false);
        }
        Ok(true)
    }

    fn put(&mut self, alloc: Global, pieces: &Pieces, spelled: &str) -> Result<(), Fault> {
        self.octets
            .extend(pieces.octets(alloc, spelled)?.as_slice())?;
        Ok(())
    }

    /// The line with its octets in hexadecimal.
    pub fn ended(self, alloc: Global) -> Result<String, Fault> {
        let Block { head, octets } = self;
        Ok(with_octets(alloc, head.as_str(), octets.as_slice())?)
    }
}

/// A line whose last part is octets, in hexadecimal.
pub fn with_octets(alloc: Global, front: &str, octets: &[u8]) -> Result<String, AllocError> {
    let octets = hexadecimal(alloc, octets)?;
    format!(in alloc; "{front} {octets}")
}
