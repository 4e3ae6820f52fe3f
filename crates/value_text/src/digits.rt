// Numbers in decimal, two digits at a time, from the first to the last.
ghost use Rattle.std.specs.Prelude.{◌≡◌, ◌≤◌, ◌<◌, ◌+◌, ◌^◌, ◌++◌, length, take, decimal};
ghost use Rattle.value_text.specs.Digits.{pair, four, eight};

use crate::place::{place_one, place_two};

/// The digits of each number below 100.
static PAIRS: [u8; 200] =
    *b"00010203040506070809101112131415161718192021222324252627282930313233343536373839404142434445464748495051525354555657585960616263646566676869707172737475767778798081828384858687888990919293949596979899";

#[inline(always)]
fn place_pair(number: u32, text: &mut [u8], at: usize)
    requires few { number < 100 }
    requires room { at + 2 ≤ length text.old }
    ensures { take (at + 2) text.new ≡ take at text.old ++ pair number }
{
    let row = 2 * number as usize;
    place_two(PAIRS[row], PAIRS[row + 1], text, at);
}

#[inline(always)]
fn place_four(number: u32, text: &mut [u8], at: usize)
    requires few { number < 10000 }
    requires room { at + 4 ≤ length text.old }
    ensures { take (at + 4) text.new ≡ take at text.old ++ four number }
{
    place_pair(number / 100, text, at);
    place_pair(number % 100, text, at + 2);
}

#[inline(always)]
fn place_eight(number: u32, text: &mut [u8], at: usize)
    requires few { number < 100000000 }
    requires room { at + 8 ≤ length text.old }
    ensures { take (at + 8) text.new ≡ take at text.old ++ eight number }
{
    place_four(number / 10000, text, at);
    place_four(number % 10000, text, at + 4);
}

/// Puts a number of at most two digits.
#[inline(always)]
fn place_below_100(number: u32, text: &mut [u8], at: usize) -> usize
    requires few { number < 100 }
    requires room { at + 2 ≤ length text.old }
    ensures grown { take result text.new ≡ take at text.old ++ decimal number }
    ensures near { result ≤ at + 2 }
{
    if number < 10 {
        place_one(b'0' + number as u8, text, at);
        return at + 1;
    }
    place_pair(number, text, at);
    at + 2
}

/// Puts a number of at most four digits.
#[inline(always)]
fn place_below_10000(number: u32, text: &mut [u8], at: usize) -> usize
    requires few { number < 10000 }
    requires room { at + 4 ≤ length text.old }
    ensures grown { take result text.new ≡ take at text.old ++ decimal number }
    ensures near { result ≤ at + 4 }
{
    if number < 100 {
        return place_below_100(number, text, at);
    }
    let end = place_below_100(number / 100, text, at);
    place_pair(number % 100, text, end);
    end + 2
}

/// Puts a number of 32 bits.
#[inline(always)]
pub fn place_u32(number: u32, text: &mut [u8], at: usize) -> usize
    requires { at + 12 ≤ length text.old }
    ensures grown { take result text.new ≡ take at text.old ++ decimal number }
    ensures near { result ≤ at + 12 }
{
    if number < 10000 {
        return place_below_10000(number, text, at);
    }
    if number < 100000000 {
        let end = place_below_10000(number / 10000, text, at);
        place_four(number % 10000, text, end);
        return end + 4;
    }
    let end = place_below_10000(number / 100000000, text, at);
    place_eight(number % 100000000, text, end);
    end + 8
}

/// Puts a number from 2^32 on.
#[inline(never)]
fn place_wide(number: u64, text: &mut [u8], at: usize) -> usize
    requires wide { 2 ^ 32 ≤ number }
    requires room { at + 20 ≤ length text.old }
    ensures grown { take result text.new ≡ take at text.old ++ decimal number }
    ensures near { result ≤ at + 20 }
{
    let high = number / 100000000;
    let low = (number % 100000000) as u32;
    if high < 1 << 32 {
        let end = place_u32(high as u32, text, at);
        place_eight(low, text, end);
        return end + 8;
    }
    let end = place_below_10000((high / 100000000) as u32, text, at);
    place_eight((high % 100000000) as u32, text, end);
    place_eight(low, text, end + 8);
    end + 8 + 8
}

/// Puts a number of 64 bits.
#[inline(always)]
pub fn place_u64(number: u64, text: &mut [u8], at: usize) -> usize
    requires { at + 20 ≤ length text.old }
    ensures grown { take result text.new ≡ take at text.old ++ decimal number }
    ensures near { result ≤ at + 20 }
{
    if number < 1 << 32 {
        return place_u32(number as u32, text, at);
    }
    place_wide(number, text, at)
}
