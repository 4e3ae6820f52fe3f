// Which texts may be a prefix or a name.
ghost use Rattle.std.specs.Prelude.{◌≡◌, IfOk, string_bytes};
ghost use Rattle.std.specs.List.{list_all};
ghost use Rattle.std.specs.Char.{is_ascii_digit};
ghost use Rattle.element_spec.specs.Names.{is_name_octet, is_name, is_enterprise, is_prefix};
ghost use Rattle.text_spec.specs.Name.{printed_name};

use std::alloc::{AllocError, Global};
use text_spec::Element;

const LONGEST: usize = 64;

fn is_name_octet(octet: u8) -> bool
    ensures { result ≡ is_name_octet octet }
{
    octet.is_ascii_alphanumeric() || octet == b'_' || octet == b'-'
}

fn are_name_octets(octets: &[u8]) -> bool
    ensures { result ≡ list_all is_name_octet octets.now }
{
    octets.iter().all(|octet| is_name_octet(*octet))
}

pub fn is_name(text: &str) -> bool
    ensures { result ≡ is_name text.now }
{
    1 <= text.len() && text.len() <= LONGEST && are_name_octets(text.as_bytes())
}

fn are_digits(octets: &[u8]) -> bool
    ensures { result ≡ list_all is_ascii_digit octets.now }
{
    octets.iter().all(|octet| octet.is_ascii_digit())
}

/// Whether it is `en` and digits, as an element without a row is named.
#[tactic(auto, unfolding(text_spec::specs::Marks::enterprise_mark))]
fn is_enterprise(text: &str) -> bool
    ensures { result ≡ is_enterprise text.now }
{
    let octets = text.as_bytes();
    if octets.len() <= 2 {
        return false;
    }
    let (front, digits) = octets.split_at(2);
    front == b"en".as_slice() && are_digits(digits)
}

pub fn is_prefix(text: &str) -> bool
    ensures { result ≡ is_prefix text.now }
{
    is_name(text) && !is_enterprise(text)
}

/// The prefix, a colon and the name.
#[tactic(auto, unfolding(text_spec::specs::Marks::colon))]
pub fn printed_name(alloc: Global, element: &Element) -> Result<String, AllocError>
    ensures { IfOk result (λ made. string_bytes made ≡ printed_name element.now) }
{
    let mut made = String::from_str(alloc, element.prefix.as_str())?;
    made.push_str(":")?;
    made.push_str(element.name.as_str())?;
    Ok(made)
}
