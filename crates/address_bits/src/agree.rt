// Whether the first bits of octets agree.
ghost use Rattle.std.specs.Prelude.{◌≡◌, ◌≤◌, ◌+◌, ◌-◌, ◌^◌, min, length};
ghost use Rattle.config_spec.specs.Texts.{top_bits, masked};
ghost use Rattle.act_spec.specs.Bits.{same_octets, agrees};

use config_spec::Prefix;

/// An octet's first bits, and zeros: of 8 bits or more all.
pub fn top_bits(bits: u8, octet: u8) -> u8
    ensures is { result ≡ top_bits (min 8 bits) octet }
    ensures room { result + 2 ^ (8 - min 8 bits) ≤ 256 }
{
    match bits {
        0 => 0,
        1 => octet & 0x80,
        2 => octet & 0xc0,
        3 => octet & 0xe0,
        4 => octet & 0xf0,
        5 => octet & 0xf8,
        6 => octet & 0xfc,
        7 => octet & 0xfe,
        _ => octet,
    }
}

/// Whether octets of one number have the same first bits.
fn same_bits(bits: u8, octets: &[u8], others: &[u8]) -> bool
    requires { length octets.now ≡ length others.now }
    ensures { result ≡ same_octets (masked bits octets.now) (masked bits others.now) }
{
    if octets.is_empty() {
        return true;
    }
    top_bits(bits, octets[0]) == top_bits(bits, others[0])
        && same_bits(bits.saturating_sub(8), &octets[1..], &others[1..])
}

/// Whether a value has as many octets as a prefix, and the same first bits.
pub fn agrees(prefix: &Prefix, value: &[u8]) -> bool
    ensures { result ≡ agrees prefix.now value.now }
{
    value.len() == prefix.octets.len() && same_bits(prefix.bits, value, prefix.octets.as_slice())
}
