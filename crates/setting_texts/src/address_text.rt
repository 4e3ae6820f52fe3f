// Texts of addresses and prefixes.
ghost use Rattle.std.specs.Prelude.{◌≡◌, ◌≤◌, ◌==◌, ◌*◌, Some, None, IfOk, IfSome, option_map, length};
ghost use Rattle.std.specs.List.{list_any, before_first, after_first};
ghost use Rattle.config_spec.specs.Texts.{address4, address6, address, has_dot, top_bits, masked, prefix_with, prefix};
ghost use Rattle.setting_texts.specs.Address.{octets_in, parts_with};

use crate::decimal_text::number_text;
use crate::marks::cut;
use col_base::Octets;
use config_spec::Prefix;
use std::alloc::{AllocError, Global};
use std::net::{Ipv4Addr, Ipv6Addr};

/// An address of one of the two kinds.
#[derive(Clone, Copy)]
pub enum AddressOctets {
    V4([u8; 4]),
    V6([u8; 16]),
}

impl AddressOctets {
    pub fn octets(&self) -> &[u8]
        ensures value { result.now ≡ octets_in self.now }
        ensures few { length result.now ≤ 16 }
    {
        match self {
            AddressOctets::V4(octets) => octets,
            AddressOctets::V6(octets) => octets,
        }
    }
}

/// The octets of an IPv4 address text.
fn address4(text: &str) -> Option<[u8; 4]>
    ensures { result ≡ address4 text.now }
{
    match text.parse::<Ipv4Addr>() {
        Ok(address) => Some(address.octets()),
        Err(_) => None,
    }
}

fn has_dot(octets: &[u8]) -> bool
    ensures { result ≡ has_dot octets.now }
{
    octets.iter().any(|octet| *octet == 46)
}

/// The octets of an IPv6 address text without a dotted part.
fn address6(text: &str) -> Option<[u8; 16]>
    ensures { result ≡ address6 text.now }
{
    if has_dot(text.as_bytes()) {
        return None;
    }
    match text.parse::<Ipv6Addr>() {
        Ok(address) => Some(address.octets()),
        Err(_) => None,
    }
}

/// The address of an address text.
#[tactic(auto, unfolding(config_spec::specs::Texts::address))]
pub fn address(text: &str) -> Option<AddressOctets>
    ensures { option_map octets_in result ≡ address text.now }
{
    match address4(text) {
        Some(octets) => Some(AddressOctets::V4(octets)),
        None => match address6(text) {
            Some(octets) => Some(AddressOctets::V6(octets)),
            None => None,
        },
    }
}

/// As many bits as an address of this kind has.
fn bits_of(address: &AddressOctets) -> u64
    ensures value { result ≡ 8 * length (octets_in address.now) }
    ensures few { result ≤ 128 }
{
    8 * address.octets().len() as u64
}

/// The address of a prefix text, and how many of its bits count.
#[tactic(auto, unfolding(config_spec::specs::Texts::prefix))]
pub fn prefix_parts(text: &str) -> Option<(AddressOctets, u8)>
    ensures { option_map parts_with result ≡ prefix text.now }
{
    match cut('/', text) {
        Some((front, bits)) => match address(front) {
            Some(address) => match number_text(bits_of(&address), bits) {
                Some(bits) => Some((address, bits as u8)),
                None => None,
            },
            None => None,
        },
        None => None,
    }
}

/// An octet's first bits, and zeros.
fn top_bits(bits: u8, octet: u8) -> u8
    requires { bits ≤ 8 }
    ensures { result ≡ top_bits bits octet }
{
    let step = 1u16 << (8 - bits);
    let low = u16::from(octet) % step;
    octet - low as u8
}

/// The first bits of octets, and zeros.
fn masked(alloc: Global, bits: u8, octets: &[u8]) -> Result<Octets, AllocError>
    ensures { IfOk result (λ made. made ≡ masked bits octets.now) }
{
    let mut made = Octets::new(alloc);
    let mut left = bits;
    for octet in octets {
        made.push(top_bits(left.min(8), *octet))?;
        left = left.saturating_sub(8);
    }
    Ok(made)
}

/// The prefix of a prefix text.
pub fn prefix(alloc: Global, text: &str) -> Result<Option<Prefix>, AllocError>
    ensures { IfOk result (λ found. found ≡ prefix text.now) }
{
    match prefix_parts(text) {
        Some((address, bits)) => Ok(Some(Prefix {
            octets: masked(alloc, bits, address.octets())?,
            bits,
        })),
        None => Ok(None),
    }
}
