// Other first bits, and zeros behind the first bits.
ghost use Rattle.std.specs.Prelude.{◌≡◌, ◌<◌, ◌-◌, ◌%◌, ◌^◌, min, length};
ghost use Rattle.config_spec.specs.Texts.{masked};
ghost use Rattle.act_spec.specs.Bits.{octet_with, in_place};

use crate::agree::top_bits;

/// An octet without its first bits.
fn low_bits(bits: u8, octet: u8) -> u8
    ensures is { result ≡ octet % 2 ^ (8 - min 8 bits) }
    ensures small { result < 2 ^ (8 - min 8 bits) }
{
    match bits {
        0 => octet,
        1 => octet & 0x7f,
        2 => octet & 0x3f,
        3 => octet & 0x1f,
        4 => octet & 0x0f,
        5 => octet & 0x07,
        6 => octet & 0x03,
        7 => octet & 0x01,
        _ => 0,
    }
}

/// An octet with its first bits from another.
fn octet_with(bits: u8, first: u8, octet: u8) -> u8
    ensures { result ≡ octet_with (min 8 bits) first octet }
{
    top_bits(bits, first) + low_bits(bits, octet)
}

/// The first bits of octets stay, and the others become 0.
pub fn keep_bits(bits: u8, octets: &mut [u8])
    ensures { octets.new ≡ masked bits octets.old }
{
    if octets.is_empty() {
        return;
    }
    octets[0] = top_bits(bits, octets[0]);
    keep_bits(bits.saturating_sub(8), &mut octets[1..]);
}

/// The first bits of octets become those of others.
pub fn put_bits(bits: u8, others: &[u8], octets: &mut [u8])
    requires { length others.now ≡ length octets.old }
    ensures { octets.new ≡ in_place bits others.now octets.old }
{
    if octets.is_empty() {
        return;
    }
    octets[0] = octet_with(bits, others[0], octets[0]);
    put_bits(bits.saturating_sub(8), &others[1..], &mut octets[1..]);
}
