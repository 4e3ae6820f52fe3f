// Numbers of up to eight octets in decimal.
ghost use Rattle.std.specs.Prelude.{◌≡◌, ◌≤◌, ◌<◌, ◌+◌, ◌*◌, ◌^◌, ◌∷◌, ◌++◌, decimal, length, take, unwrap_or};
ghost use Rattle.std.specs.Fmt.{signed_decimal};
ghost use Rattle.text_spec.specs.Number.{number_of, signed_number_of};
ghost use Rattle.text_spec.specs.Value.{is_reduced, octet_text, unsigned_text, signed_text};

use crate::digits::place_u64;
use crate::octet_text::place_octets;
use crate::place::place_one;
use col_base::{be32, be64};

/// The number of up to eight octets, octet by octet.
fn add_octets(value: &[u8]) -> u64
    requires { length value.now ≤ 8 }
    ensures is { result ≡ number_of value.now }
    ensures below { result < 256 ^ length value.now }
{
    let mut n = 0u64;
    for octet in value {
        n = 256 * n + u64::from(*octet);
    }
    n
}

/// The big-endian number of up to eight octets: most have eight or four.
pub fn number(value: &[u8]) -> u64
    requires { length value.now ≤ 8 }
    ensures is { result ≡ number_of value.now }
    ensures below { result < 256 ^ length value.now }
{
    if value.len() == 8 {
        return be64(value, 0);
    }
    if value.len() == 4 {
        return u64::from(be32(value, 0));
    }
    add_octets(value)
}

/// Whether a number of so many octets can be sent in as many as these (RFC 7011, section 6.2).
fn is_reduced(size: usize, value: &[u8]) -> bool
    ensures { result ≡ is_reduced size value.now }
{
    1 <= value.len() && value.len() <= size
}

/// Puts an unsigned number of a type of so many octets.
pub fn place_unsigned(size: usize, value: &[u8], text: &mut [u8], at: usize) -> usize
    requires size { size ≤ 8 }
    requires room { at + 6 * length value.now + 64 ≤ length text.old }
    ensures grown { take result text.new ≡ take at text.old ++ unwrap_or (unsigned_text size value.now) (octet_text value.now) }
    ensures near { result ≤ at + 6 * length value.now + 20 }
{
    if !is_reduced(size, value) {
        return place_octets(value, text, at);
    }
    place_u64(number(value), text, at)
}

/// The greatest number of so many octets.
fn greatest(octets: usize) -> u64
    requires { octets ≤ 8 }
    ensures { result + 1 ≡ 256 ^ octets }
{
    match octets {
        0 => 0,
        1 => 0xff,
        2 => 0xffff,
        3 => 0xff_ffff,
        4 => 0xffff_ffff,
        5 => 0xff_ffff_ffff,
        6 => 0xffff_ffff_ffff,
        7 => 0xff_ffff_ffff_ffff,
        _ => u64::MAX,
    }
}

/// Puts a number below 0, of which its size is given.
fn place_negative(size: u64, text: &mut [u8], at: usize) -> usize
    requires { at + 21 ≤ length text.old }
    ensures grown { take result text.new ≡ take at text.old ++ 45 ∷ decimal size }
    ensures near { result ≤ at + 21 }
{
    place_one(b'-', text, at);
    place_u64(size, text, at + 1)
}

/// Puts the two's complement number of up to eight octets.
fn place_complement(value: &[u8], text: &mut [u8], at: usize) -> usize
    requires few { length value.now ≤ 8 }
    requires some { 1 ≤ length value.now }
    requires room { at + 21 ≤ length text.old }
    ensures grown { take result text.new ≡ take at text.old ++ signed_decimal (signed_number_of value.now) }
    ensures near { result ≤ at + 21 }
{
    let number = number(value);
    let greatest = greatest(value.len());
    if number <= greatest / 2 {
        place_u64(number, text, at)
    } else {
        place_negative(greatest - number + 1, text, at)
    }
}

/// Puts a signed number of a type of so many octets.
pub fn place_signed(size: usize, value: &[u8], text: &mut [u8], at: usize) -> usize
    requires size { size ≤ 8 }
    requires room { at + 6 * length value.now + 64 ≤ length text.old }
    ensures grown { take result text.new ≡ take at text.old ++ unwrap_or (signed_text size value.now) (octet_text value.now) }
    ensures near { result ≤ at + 6 * length value.now + 20 }
{
    if !is_reduced(size, value) {
        return place_octets(value, text, at);
    }
    place_complement(value, text, at)
}
