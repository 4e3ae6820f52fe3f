// Octets in hexadecimal, two digits at a time.
ghost use Rattle.std.specs.Prelude.{◌≡◌, ◌≤◌, ◌+◌, ◌++◌, length, take};
ghost use Rattle.text_spec.specs.Value.{hex_pair};
ghost use Rattle.value_text.specs.Hexadecimal.{short_pair};

use crate::place::place_two;

/// The two digits of each octet.
static PAIRS: [u8; 512] =
    *b"000102030405060708090a0b0c0d0e0f101112131415161718191a1b1c1d1e1f202122232425262728292a2b2c2d2e2f303132333435363738393a3b3c3d3e3f404142434445464748494a4b4c4d4e4f505152535455565758595a5b5c5d5e5f606162636465666768696a6b6c6d6e6f707172737475767778797a7b7c7d7e7f808182838485868788898a8b8c8d8e8f909192939495969798999a9b9c9d9e9fa0a1a2a3a4a5a6a7a8a9aaabacadaeafb0b1b2b3b4b5b6b7b8b9babbbcbdbebfc0c1c2c3c4c5c6c7c8c9cacbcccdcecfd0d1d2d3d4d5d6d7d8d9dadbdcdddedfe0e1e2e3e4e5e6e7e8e9eaebecedeeeff0f1f2f3f4f5f6f7f8f9fafbfcfdfeff";

/// Puts the two digits of an octet.
#[inline(always)]
pub fn place_hex_pair(octet: u8, text: &mut [u8], at: usize)
    requires { at + 2 ≤ length text.old }
    ensures { take (at + 2) text.new ≡ take at text.old ++ hex_pair octet }
{
    let row = 2 * octet as usize;
    place_two(PAIRS[row], PAIRS[row + 1], text, at);
}

/// Puts the digits of an octet without a zero in front. Both digits are put, the last one twice where it stands alone, so
/// that nothing depends on a test.
#[inline(always)]
pub fn place_short_pair(octet: u8, text: &mut [u8], at: usize) -> usize
    requires { at + 2 ≤ length text.old }
    ensures grown { take result text.new ≡ take at text.old ++ short_pair octet }
    ensures near { result ≤ at + 2 }
{
    let zeros = if octet < 16 { 1 } else { 0 };
    let row = 2 * octet as usize;
    place_two(PAIRS[row + zeros], PAIRS[row + 1], text, at);
    at + 2 - zeros
}
