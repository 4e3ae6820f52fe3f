// The text of a MAC address.
ghost use Rattle.std.specs.Prelude.{◌≡◌, ◌≤◌, ◌+◌, ◌*◌, ◌++◌, [], ◌∷◌, length, take, unwrap_or};
ghost use Rattle.std.specs.List.{join_by};
ghost use Rattle.text_spec.specs.Marks.{colon};
ghost use Rattle.text_spec.specs.Value.{hex_pair, mac_text, octet_text, quoted};

use crate::octet_text::{hex_digit, place_octets};
use crate::place::place_piece;

/// Six octets with colons between, in quotes.
#[tactic(auto, unfolding(text_spec::specs::Marks::quote, text_spec::specs::Marks::colon))]
fn address(a: u8, b: u8, c: u8, d: u8, e: u8, f: u8) -> [u8; 19]
    ensures { result ≡ quoted (join_by hex_pair colon (a ∷ b ∷ c ∷ d ∷ e ∷ f ∷ [])) }
{
    [
        b'"',
        hex_digit(a / 16),
        hex_digit(a % 16),
        b':',
        hex_digit(b / 16),
        hex_digit(b % 16),
        b':',
        hex_digit(c / 16),
        hex_digit(c % 16),
        b':',
        hex_digit(d / 16),
        hex_digit(d % 16),
        b':',
        hex_digit(e / 16),
        hex_digit(e % 16),
        b':',
        hex_digit(f / 16),
        hex_digit(f % 16),
        b'"',
    ]
}

/// Puts an address of six octets.
fn place_six(value: &[u8], text: &mut [u8], at: usize) -> usize
    requires six { length value.now ≡ 6 }
    requires room { at + 20 ≤ length text.old }
    ensures grown { take result text.new ≡ take at text.old ++ quoted (join_by hex_pair colon value.now) }
    ensures near { result ≤ at + 20 }
{
    let address = address(value[0], value[1], value[2], value[3], value[4], value[5]);
    place_piece(&address, text, at)
}

/// Puts a MAC address.
pub fn place_mac(value: &[u8], text: &mut [u8], at: usize) -> usize
    requires { at + 6 * length value.now + 64 ≤ length text.old }
    ensures grown { take result text.new ≡ take at text.old ++ unwrap_or (mac_text value.now) (octet_text value.now) }
    ensures near { result ≤ at + 6 * length value.now + 20 }
{
    if value.len() != 6 {
        return place_octets(value, text, at);
    }
    place_six(value, text, at)
}
