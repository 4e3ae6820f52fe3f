// The text of a value that no rule of its type covers.
ghost use Rattle.std.specs.Prelude.{◌≡◌, ◌≤◌, ◌<◌, ◌+◌, ◌*◌, ◌++◌, flat_map, length, take};
ghost use Rattle.std.specs.Char.{digit_char};
ghost use Rattle.text_spec.specs.Marks.{quote, hexadecimal_mark};
ghost use Rattle.text_spec.specs.Value.{hex_pair, octet_text};

use crate::hexadecimal::place_hex_pair;
use crate::place::{place_one, place_three};

/// A lower-case hexadecimal digit.
#[inline(always)]
pub fn hex_digit(n: u8) -> u8
    requires { n < 16 }
    ensures { result ≡ digit_char n }
{
    if n < 10 { b'0' + n } else { b'a' + (n - 10) }
}

/// Puts two digits for each octet.
fn place_pairs(value: &[u8], text: &mut [u8], at: usize) -> usize
    requires { at + 2 * length value.now ≤ length text.old }
    ensures grown { take result text.new ≡ take at text.old ++ flat_map hex_pair value.now }
    ensures near { result ≤ at + 2 * length value.now }
{
    let mut end = at;
    for octet in value {
        place_hex_pair(*octet, text, end);
        end += 2;
    }
    end
}

/// Puts a quote and the mark of hexadecimal digits.
#[inline(always)]
#[tactic(auto, unfolding(text_spec::specs::Marks::quote, text_spec::specs::Marks::hexadecimal_mark))]
fn place_start(text: &mut [u8], at: usize) -> usize
    requires { at + 3 ≤ length text.old }
    ensures grown { take result text.new ≡ take at text.old ++ (quote ++ hexadecimal_mark) }
    ensures near { result ≤ at + 3 }
{
    place_three(b'"', b'0', b'x', text, at);
    at + 3
}

/// Puts a quote.
#[inline(always)]
#[tactic(auto, unfolding(text_spec::specs::Marks::quote))]
pub fn place_quote(text: &mut [u8], at: usize) -> usize
    requires { at + 1 ≤ length text.old }
    ensures grown { take result text.new ≡ take at text.old ++ quote }
    ensures near { result ≤ at + 1 }
{
    place_one(b'"', text, at);
    at + 1
}

/// Puts the octets of a value: in quotes `0x`, and two digits for each octet.
pub fn place_octets(value: &[u8], text: &mut [u8], at: usize) -> usize
    requires { at + 6 * length value.now + 64 ≤ length text.old }
    ensures grown { take result text.new ≡ take at text.old ++ octet_text value.now }
    ensures near { result ≤ at + 6 * length value.now + 20 }
{
    let end = place_start(text, at);
    let end = place_pairs(value, text, end);
    place_quote(text, end)
}
