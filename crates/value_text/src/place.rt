// A text that grows in a slice: `at` octets of it stand, and what is put stands behind them. A copy of a fixed size is a
// few moves of 16 octets: one of a size that varies is a call.
ghost use Rattle.std.specs.Prelude.{◌≡◌, ◌≤◌, ◌+◌, ◌++◌, [], ◌∷◌, length, take};

/// The octets of a block.
pub const BLOCK: usize = 64;

/// Puts one octet.
#[inline(always)]
pub fn place_one(octet: u8, text: &mut [u8], at: usize)
    requires { at + 1 ≤ length text.old }
    ensures { take (at + 1) text.new ≡ take at text.old ++ octet ∷ [] }
{
    text[at] = octet;
}

/// Puts two octets.
#[inline(always)]
pub fn place_two(first: u8, second: u8, text: &mut [u8], at: usize)
    requires { at + 2 ≤ length text.old }
    ensures { take (at + 2) text.new ≡ take at text.old ++ first ∷ second ∷ [] }
{
    text[at] = first;
    text[at + 1] = second;
}

/// Puts three octets.
#[inline(always)]
pub fn place_three(first: u8, second: u8, third: u8, text: &mut [u8], at: usize)
    requires { at + 3 ≤ length text.old }
    ensures { take (at + 3) text.new ≡ take at text.old ++ first ∷ second ∷ third ∷ [] }
{
    text[at] = first;
    text[at + 1] = second;
    text[at + 2] = third;
}

/// Puts four octets.
#[inline(always)]
pub fn place_quad(a: u8, b: u8, c: u8, d: u8, text: &mut [u8], at: usize)
    requires { at + 4 ≤ length text.old }
    ensures { take (at + 4) text.new ≡ take at text.old ++ a ∷ b ∷ c ∷ d ∷ [] }
{
    text[at] = a;
    text[at + 1] = b;
    text[at + 2] = c;
    text[at + 3] = d;
}

/// Fills a room with a block.
#[inline(always)]
fn fill(room: &mut [u8], block: &[u8; BLOCK])
    requires { length room.old ≡ 64 }
    ensures { room.new ≡ block.now }
{
    let Some(room) = room.as_mut_array::<BLOCK>() else {
        unreachable!()
    };
    *room = *block;
}

/// Puts a block.
#[inline(always)]
pub fn place_block(block: &[u8; BLOCK], text: &mut [u8], at: usize)
    requires { at + 64 ≤ length text.old }
    ensures { take (at + 64) text.new ≡ take at text.old ++ block.now }
{
    fill(&mut text[at..at + BLOCK], block);
}

/// Puts a piece of any length, and answers the place behind it.
#[inline(always)]
pub fn place_piece(piece: &[u8], text: &mut [u8], at: usize) -> usize
    requires { at + length piece.now ≤ length text.old }
    ensures grown { take result text.new ≡ take at text.old ++ piece.now }
    ensures end { result ≡ at + length piece.now }
{
    let end = at + piece.len();
    text[at..end].copy_from_slice(piece);
    end
}
