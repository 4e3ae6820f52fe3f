// A row with the range of the addresses that agree with it.
ghost use Rattle.std.specs.Prelude.{◌≡◌, ◌≤◌, ◌+◌, ◌*◌, ◌^◌, ◌<◌, min, true, length, IfOk};
ghost use Rattle.text_spec.specs.Number.{number_of};
ghost use Rattle.config_spec.specs.Form.{IsAnonRow};
ghost use Rattle.config_spec.specs.Texts.{masked};
ghost use Rattle.anonymise_stage.specs.Ranges.{are_octets, filled, with_ones, low_of, high_of};

use address_bits::top_bits;
use config_spec::AnonRow;
use std::alloc::AllocError;

/// A row, and the numbers of the first and the last address that agree with it.
#[derive(Drop)]
pub struct PreparedRow {
    pub row: AnonRow,
    pub low: u128,
    pub high: u128,
    ghost fits: { length row.to ≡ length row.from.octets },
    ghost octets: { are_octets row.from.octets ≡ true },
    ghost first: { low ≡ low_of row },
    ghost last: { high ≡ high_of row },
}

/// Octets are below 256.
pub fn octets_are_small(octets: &[u8])
    ensures { are_octets octets.now ≡ true }
{
    let _octets = octets;
}

/// The number of an address.
pub fn number_of(octets: &[u8]) -> u128
    requires { length octets.now ≤ 16 }
    ensures { result ≡ number_of octets.now }
{
    let mut number: u128 = 0;
    for octet in octets {
        number = 256 * number + u128::from(*octet);
    }
    number
}

/// The number of an address with zeros behind its first bits.
fn low_number(bits: u8, octets: &[u8]) -> u128
    requires { length octets.now ≤ 16 }
    ensures { result ≡ number_of (masked bits octets.now) }
{
    let mut number: u128 = 0;
    let mut left = bits;
    for octet in octets {
        number = 256 * number + u128::from(top_bits(left, *octet));
        left = left.saturating_sub(8);
    }
    number
}

/// An octet with ones behind its first bits.
fn with_ones(bits: u8, octet: u8) -> u8
    ensures { result ≡ with_ones (min 8 bits) octet }
{
    match bits {
        0 => 0xff,
        1 => octet - octet % 128 + 127,
        2 => octet - octet % 64 + 63,
        3 => octet - octet % 32 + 31,
        4 => octet - octet % 16 + 15,
        5 => octet - octet % 8 + 7,
        6 => octet - octet % 4 + 3,
        7 => octet - octet % 2 + 1,
        _ => octet,
    }
}

/// The number of an address with ones behind its first bits.
fn high_number(bits: u8, octets: &[u8]) -> u128
    requires { length octets.now ≤ 16 }
    ensures { result ≡ number_of (filled bits octets.now) }
{
    let mut number: u128 = 0;
    let mut left = bits;
    for octet in octets {
        number = 256 * number + u128::from(with_ones(left, *octet));
        left = left.saturating_sub(8);
    }
    number
}

impl PreparedRow {
    /// A copy of a row, with its range.
    pub fn new(row: &AnonRow) -> Result<PreparedRow, AllocError>
        requires { IsAnonRow row.now }
        ensures { IfOk result (λ prepared. prepared.row ≡ row.now) }
    {
        let octets = row.from.octets.as_slice();
        octets_are_small(octets);
        let low = low_number(row.from.bits, octets);
        let high = high_number(row.from.bits, octets);
        Ok(PreparedRow {
            row: row.clone()?,
            low,
            high,
        })
    }
}
