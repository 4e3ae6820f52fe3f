// The text of an IPv6 address (RFC 5952, section 4).
ghost use Rattle.std.specs.Prelude.{◌≡◌, ◌≤◌, ◌<◌, ◌+◌, ◌*◌, ◌++◌, codes, flat_map, take, drop, length, unwrap_or};
ghost use Rattle.std.specs.Net.Addr.{segments_of};
ghost use Rattle.std.specs.Net.Text as net;
ghost use Rattle.text_spec.specs.Value.{ipv6_text, octet_text, quoted};
ghost use Rattle.value_text.specs.Groups.{separator, later_group, zero_groups};

use crate::hexadecimal::{place_hex_pair, place_short_pair};
use crate::octet_text::{place_octets, place_quote};
use crate::place::{place_one, place_two};
use crate::zero_run::longest_zero_run;
use col_base::be16;

/// Puts a group without leading zeros.
#[inline(always)]
fn place_group(group: u16, text: &mut [u8], at: usize) -> usize
    requires { at + 4 ≤ length text.old }
    ensures grown { take result text.new ≡ take at text.old ++ net.hex group }
    ensures near { result ≤ at + 4 }
{
    let high = (group / 256) as u8;
    let low = (group % 256) as u8;
    if high == 0 {
        return place_short_pair(low, text, at);
    }
    let end = place_short_pair(high, text, at);
    place_hex_pair(low, text, end);
    end + 2
}

/// Puts a colon.
#[inline(always)]
#[tactic(auto, unfolding(crate::specs::Groups::separator))]
fn place_separator(text: &mut [u8], at: usize) -> usize
    requires { at + 1 ≤ length text.old }
    ensures grown { take result text.new ≡ take at text.old ++ separator }
    ensures near { result ≤ at + 1 }
{
    place_one(b':', text, at);
    at + 1
}

/// Puts a colon and a group.
fn place_later_group(group: u16, text: &mut [u8], at: usize) -> usize
    requires { at + 5 ≤ length text.old }
    ensures grown { take result text.new ≡ take at text.old ++ later_group group }
    ensures near { result ≤ at + 5 }
{
    let end = place_separator(text, at);
    place_group(group, text, end)
}

/// Puts groups, a colon before each.
fn place_later_groups(groups: &[u16], text: &mut [u8], at: usize) -> usize
    requires { at + 5 * length groups.now ≤ length text.old }
    ensures grown { take result text.new ≡ take at text.old ++ flat_map later_group groups.now }
    ensures near { result ≤ at + 5 * length groups.now }
{
    let mut end = at;
    for group in groups {
        end = place_later_group(*group, text, end);
    }
    end
}

/// Puts a group, and others behind it.
fn place_first(first: u16, later: &[u16], text: &mut [u8], at: usize) -> usize
    requires { at + 5 + 5 * length later.now ≤ length text.old }
    ensures grown { take result text.new ≡ take at text.old ++ (net.hex first ++ flat_map later_group later.now) }
    ensures near { result ≤ at + 5 + 5 * length later.now }
{
    let end = place_group(first, text, at);
    place_later_groups(later, text, end)
}

/// All groups but the first.
fn later(groups: &[u16]) -> &[u16]
    requires { 1 ≤ length groups.now }
    ensures { result.now ≡ drop 1 groups.now }
{
    &groups[1..]
}

/// Puts groups, a colon between.
fn place_groups(groups: &[u16], text: &mut [u8], at: usize) -> usize
    requires { at + 5 * length groups.now ≤ length text.old }
    ensures grown { take result text.new ≡ take at text.old ++ net.groups_text groups.now }
    ensures near { result ≤ at + 5 * length groups.now }
{
    if groups.is_empty() {
        return at;
    }
    place_first(groups[0], later(groups), text, at)
}

/// Puts two colons.
#[inline(always)]
#[tactic(auto, unfolding(crate::specs::Groups::zero_groups))]
fn place_zero_groups(text: &mut [u8], at: usize) -> usize
    requires { at + 2 ≤ length text.old }
    ensures grown { take result text.new ≡ take at text.old ++ zero_groups }
    ensures near { result ≤ at + 2 }
{
    place_two(b':', b':', text, at);
    at + 2
}

/// Puts groups, and two colons between.
fn place_parts(front: &[u16], back: &[u16], text: &mut [u8], at: usize) -> usize
    requires { at + 5 * length front.now + 2 + 5 * length back.now ≤ length text.old }
    ensures grown { take result text.new ≡ take at text.old ++ (net.groups_text front.now ++ zero_groups ++ net.groups_text back.now) }
    ensures near { result ≤ at + 5 * length front.now + 2 + 5 * length back.now }
{
    let end = place_groups(front, text, at);
    let end = place_zero_groups(text, end);
    place_groups(back, text, end)
}

/// Puts groups, the longest run of two or more that are zero as two colons.
#[tactic(auto, unfolding(std::specs::Net::Text::hex_groups_text, crate::specs::Groups::zero_groups))]
fn place_compressed(groups: &[u16; 8], text: &mut [u8], at: usize) -> usize
    requires { at + 5 * length groups.now + 2 ≤ length text.old }
    ensures grown { take result text.new ≡ take at text.old ++ net.hex_groups_text groups.now }
    ensures near { result ≤ at + 5 * length groups.now + 2 }
{
    let (start, len) = longest_zero_run(groups);
    if len < 2 {
        return place_groups(groups, text, at);
    }
    place_parts(&groups[..start], &groups[start + len..], text, at)
}

/// The groups of an address.
fn groups_of(value: &[u8]) -> [u16; 8]
    requires { length value.now ≡ 16 }
    ensures { result ≡ segments_of value.now }
{
    [
        be16(value, 0),
        be16(value, 2),
        be16(value, 4),
        be16(value, 6),
        be16(value, 8),
        be16(value, 10),
        be16(value, 12),
        be16(value, 14),
    ]
}

/// Puts an address of sixteen octets.
fn place_sixteen(value: &[u8], text: &mut [u8], at: usize) -> usize
    requires sixteen { length value.now ≡ 16 }
    requires room { at + 44 ≤ length text.old }
    ensures grown { take result text.new ≡ take at text.old ++ quoted (net.hex_groups_text (segments_of value.now)) }
    ensures near { result ≤ at + 44 }
{
    let end = place_quote(text, at);
    let end = place_compressed(&groups_of(value), text, end);
    place_quote(text, end)
}

/// Puts an IPv6 address.
pub fn place_ipv6(value: &[u8], text: &mut [u8], at: usize) -> usize
    requires { at + 6 * length value.now + 64 ≤ length text.old }
    ensures grown { take result text.new ≡ take at text.old ++ unwrap_or (ipv6_text value.now) (octet_text value.now) }
    ensures near { result ≤ at + 6 * length value.now + 20 }
{
    if value.len() != 16 {
        return place_octets(value, text, at);
    }
    place_sixteen(value, text, at)
}
