// A message that grows in a room: `at` octets of it stand, and what is put stands behind them.
ghost use Rattle.std.specs.Prelude.{◌≡◌, ◌≤◌, ◌+◌, ◌++◌, length, take};
ghost use Rattle.wire_spec.specs.Specifiers.{two_octets, four_octets};
ghost use Rattle.load_spec.specs.Draws.{draws, state_after};

use crate::draw::draw_all;

/// Puts a number of two octets.
#[inline(always)]
pub fn put_two(number: u16, room: &mut [u8], at: usize)
    requires { at + 2 ≤ length room.old }
    ensures { take (at + 2) room.new ≡ take at room.old ++ two_octets number }
{
    room[at] = (number / 256) as u8;
    room[at + 1] = (number % 256) as u8;
}

/// Puts a number of four octets.
#[inline(always)]
pub fn put_four(number: u32, room: &mut [u8], at: usize)
    requires { at + 4 ≤ length room.old }
    ensures { take (at + 4) room.new ≡ take at room.old ++ four_octets number }
{
    put_two((number / 65536) as u16, room, at);
    put_two((number % 65536) as u16, room, at + 2);
}

/// Puts octets, and answers the place behind them.
#[inline(always)]
pub fn put_all(octets: &[u8], room: &mut [u8], at: usize) -> usize
    requires { at + length octets.now ≤ length room.old }
    ensures put { take result room.new ≡ take at room.old ++ octets.now }
    ensures end { result ≡ at + length octets.now }
{
    let end = at + octets.len();
    room[at..end].copy_from_slice(octets);
    end
}

/// Puts so many octets that are drawn from a state, and answers the state that is left.
#[inline(always)]
pub fn put_draws(state: u64, count: usize, room: &mut [u8], at: usize) -> u64
    requires { at + count ≤ length room.old }
    ensures put { take (at + count) room.new ≡ take at room.old ++ draws count state }
    ensures state { result ≡ state_after count state }
{
    draw_all(state, &mut room[at..at + count])
}
