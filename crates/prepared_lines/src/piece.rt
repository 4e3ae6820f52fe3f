// Octets that a line has before a value, of any number.
ghost use Rattle.std.specs.Prelude.{◌≡◌, ◌≤◌, ◌+◌, ◌++◌, IfOk, length, take};

use crate::literal::Literal;
use col_base::Octets;
use std::alloc::{AllocError, Global};
use std::marker::Model;
use value_text::place_piece;

/// Octets that are the same for each record, with a block of them where they fit one: a block is copied by a few moves, and
/// any other number by a call.
#[derive(Drop)]
pub struct Piece {
    octets: Octets,
    block: Option<Literal>,
}

impl Model for Piece {
    ghost use Rattle.std.specs.Prelude.{List, ℕ, ◌≡◌, IfSome};

    ghost Value = { List ℕ };

    ghost view = { λ p. p.octets };

    ghost invariant = { λ p. IfSome p.block (λ block. block ≡ p.octets) };
}

impl Piece {
    /// A copy of octets.
    pub fn new(alloc: Global, octets: &[u8]) -> Result<Piece, AllocError>
        ensures { IfOk result (λ piece. piece ≡ octets.now) }
    {
        let block = Literal::fitting(octets);
        let octets = Octets::from_slice(alloc, octets)?;
        Ok(Piece { octets, block })
    }

    /// How many there are.
    pub fn len(&self) -> usize
        ensures { result ≡ length self.now }
    {
        self.octets.len()
    }

    /// The octets.
    pub fn as_slice(&self) -> &[u8]
        ensures { result.now ≡ self.now }
    {
        self.octets.as_slice()
    }

    /// Puts the octets behind a place.
    #[inline(always)]
    pub fn place(&self, text: &mut [u8], at: usize) -> usize
        requires { at + (length self.now + 64) ≤ length text.old }
        ensures grown { take result text.new ≡ take at text.old ++ self.now }
        ensures end { result ≡ at + length self.now }
    {
        match &self.block {
            Some(block) => block.place(text, at),
            None => place_piece(self.octets.as_slice(), text, at),
        }
    }
}
