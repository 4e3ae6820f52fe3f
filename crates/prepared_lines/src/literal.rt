// Octets that stand before a value, in a block.
ghost use Rattle.std.specs.Prelude.{◌≡◌, ◌≤◌, ◌+◌, ◌++◌, IfSome, length, take};

use std::marker::Model;
use value_text::{BLOCK, place_block};

/// At most 64 octets, in a block of fixed size: such a block is copied by a few moves.
#[derive(Drop)]
pub struct Literal {
    block: [u8; BLOCK],
    len: usize,
}

impl Model for Literal {
    ghost use Rattle.std.specs.Prelude.{List, ℕ, ◌≤◌, take};

    ghost Value = { List ℕ };

    ghost view = { λ l. take l.len l.block };

    ghost invariant = { λ l. l.len ≤ 64 };
}

/// The octets of half a block, which most literals fit.
const HALF: usize = 32;

/// The first half of a block.
#[inline(always)]
fn first_half(block: &[u8; BLOCK]) -> &[u8; HALF]
    ensures { result.now ≡ take 32 block.now }
{
    let Some(half) = block.first_chunk::<HALF>() else {
        unreachable!()
    };
    half
}

/// Fills a room with half a block.
#[inline(always)]
fn fill(room: &mut [u8], half: &[u8; HALF])
    requires { length room.old ≡ 32 }
    ensures { room.new ≡ half.now }
{
    let Some(room) = room.as_mut_array::<HALF>() else {
        unreachable!()
    };
    *room = *half;
}

/// Puts half a block.
#[inline(always)]
fn place_half(half: &[u8; HALF], text: &mut [u8], at: usize)
    requires { at + 32 ≤ length text.old }
    ensures { take (at + 32) text.new ≡ take at text.old ++ half.now }
{
    fill(&mut text[at..at + HALF], half);
}

impl Literal {
    /// The octets, in a block.
    pub fn new(octets: &[u8]) -> Literal
        requires { length octets.now ≤ 64 }
        ensures { result ≡ octets.now }
    {
        let mut block = [0; BLOCK];
        block[..octets.len()].copy_from_slice(octets);
        Literal {
            block,
            len: octets.len(),
        }
    }

    /// The octets, in a block, where they fit one.
    pub fn fitting(octets: &[u8]) -> Option<Literal>
        ensures { IfSome result (λ block. block ≡ octets.now) }
    {
        if octets.len() > BLOCK {
            return None;
        }
        Some(Literal::new(octets))
    }

    /// Puts the octets behind a place: as half a block where they fit one, since stores are what the fast loop has most of.
    #[inline(always)]
    pub fn place(&self, text: &mut [u8], at: usize) -> usize
        requires { at + 64 ≤ length text.old }
        ensures grown { take result text.new ≡ take at text.old ++ self.now }
        ensures near { result ≤ at + 64 }
        ensures end { result ≡ at + length self.now }
    {
        if self.len <= HALF {
            place_half(first_half(&self.block), text, at);
            return at + self.len;
        }
        place_block(&self.block, text, at);
        at + self.len
    }
}
