// Times in milliseconds since 1970 (RFC 7011, sections 6.1.7 to 6.1.10).
ghost use Rattle.std.specs.Prelude.{◌≡◌, ◌≤◌, ◌+◌, ◌*◌, ◌==◌, ◌&&◌, ◌++◌, length, nat_le, take, drop, unwrap_or};
ghost use Rattle.text_spec.specs.Number.{number_of};
ghost use Rattle.text_spec.specs.Value.{octet_text, seconds_text, milliseconds_text, microseconds_text, nanoseconds_text, ntp_milliseconds, ntp_seconds_of_1970};

use crate::digits::place_u64;
use crate::number::number;
use crate::octet_text::place_octets;
use col_base::be32;

/// The seconds from 1900 to 1970.
const SECONDS_TO_1970: u64 = 2_208_988_800;

/// Into how many parts a second is cut.
const FRACTIONS: u64 = 1 << 32;

/// The parts of a second below which a time in microseconds says nothing.
const MICROSECOND: u32 = 1 << 11;

/// Puts a time in seconds.
pub fn place_seconds(value: &[u8], text: &mut [u8], at: usize) -> usize
    requires { at + 6 * length value.now + 64 ≤ length text.old }
    ensures grown { take result text.new ≡ take at text.old ++ unwrap_or (seconds_text value.now) (octet_text value.now) }
    ensures near { result ≤ at + 6 * length value.now + 20 }
{
    if value.len() != 4 {
        return place_octets(value, text, at);
    }
    place_u64(1000 * u64::from(number_of_four(value)), text, at)
}

/// Puts a time in milliseconds.
pub fn place_milliseconds(value: &[u8], text: &mut [u8], at: usize) -> usize
    requires { at + 6 * length value.now + 64 ≤ length text.old }
    ensures grown { take result text.new ≡ take at text.old ++ unwrap_or (milliseconds_text value.now) (octet_text value.now) }
    ensures near { result ≤ at + 6 * length value.now + 20 }
{
    if value.len() != 8 {
        return place_octets(value, text, at);
    }
    place_u64(number(value), text, at)
}

/// A time of NTP in milliseconds since 1970.
fn ntp_milliseconds(seconds: u32, fraction: u32) -> u64
    requires { 2208988800 ≤ seconds }
    ensures { result ≡ ntp_milliseconds seconds fraction }
{
    1000 * (u64::from(seconds) - SECONDS_TO_1970) + 1000 * u64::from(fraction) / FRACTIONS
}

/// The number of four octets.
fn number_of_four(octets: &[u8]) -> u32
    requires { length octets.now ≡ 4 }
    ensures { result ≡ number_of octets.now }
{
    be32(octets, 0)
}

/// The seconds of a time of NTP.
fn seconds_of(value: &[u8]) -> u32
    requires { length value.now ≡ 8 }
    ensures { result ≡ number_of (take 4 value.now) }
{
    number_of_four(&value[..4])
}

/// The fraction of a time of NTP.
fn fraction_of(value: &[u8]) -> u32
    requires { length value.now ≡ 8 }
    ensures { result ≡ number_of (drop 4 value.now) }
{
    number_of_four(&value[4..])
}

/// Whether these are seconds since 1900 that are not before 1970, and a fraction.
fn is_from_1970(value: &[u8]) -> bool
    ensures { result ≡ (length value.now == 8 && nat_le ntp_seconds_of_1970 (number_of (take 4 value.now))) }
{
    value.len() == 8 && u64::from(seconds_of(value)) >= SECONDS_TO_1970
}

/// Puts a time of NTP of which all bits count.
pub fn place_nanoseconds(value: &[u8], text: &mut [u8], at: usize) -> usize
    requires { at + 6 * length value.now + 64 ≤ length text.old }
    ensures grown { take result text.new ≡ take at text.old ++ unwrap_or (nanoseconds_text value.now) (octet_text value.now) }
    ensures near { result ≤ at + 6 * length value.now + 20 }
{
    if !is_from_1970(value) {
        return place_octets(value, text, at);
    }
    place_u64(
        ntp_milliseconds(seconds_of(value), fraction_of(value)),
        text,
        at,
    )
}

/// Puts a time of NTP of whose fraction the lowest 11 bits don't count.
pub fn place_microseconds(value: &[u8], text: &mut [u8], at: usize) -> usize
    requires { at + 6 * length value.now + 64 ≤ length text.old }
    ensures grown { take result text.new ≡ take at text.old ++ unwrap_or (microseconds_text value.now) (octet_text value.now) }
    ensures near { result ≤ at + 6 * length value.now + 20 }
{
    if !is_from_1970(value) {
        return place_octets(value, text, at);
    }
    let fraction = fraction_of(value);
    let counted = fraction - fraction % MICROSECOND;
    place_u64(ntp_milliseconds(seconds_of(value), counted), text, at)
}
