// The text of a boolean (RFC 7011, section 6.1.5).
ghost use Rattle.std.specs.Prelude.{◌≡◌, ◌≤◌, ◌+◌, ◌*◌, ◌++◌, length, take, unwrap_or};
ghost use Rattle.text_spec.specs.Value.{boolean_text, octet_text};

use crate::octet_text::place_octets;
use crate::place::place_piece;

/// Puts a boolean.
#[tactic(auto, unfolding(text_spec::specs::Marks::true_text, text_spec::specs::Marks::false_text))]
pub fn place_boolean(value: &[u8], text: &mut [u8], at: usize) -> usize
    requires { at + 6 * length value.now + 64 ≤ length text.old }
    ensures grown { take result text.new ≡ take at text.old ++ unwrap_or (boolean_text value.now) (octet_text value.now) }
    ensures near { result ≤ at + 6 * length value.now + 20 }
{
    match value {
        [1] => place_piece(b"true", text, at),
        [2] => place_piece(b"false", text, at),
        _ => place_octets(value, text, at),
    }
}
