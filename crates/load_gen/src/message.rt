// A message (RFC 7011, sections 3.1 to 3.4), which is written into a room.
ghost use Rattle.std.specs.Prelude.{◌≡◌, ◌≤◌, ◌<◌, ◌+◌, ◌*◌, ◌/◌, ◌%◌, ◌++◌, ◌==◌, length, take};
ghost use Rattle.wire_spec.specs.Specifiers.{two_octets, four_octets};
ghost use Rattle.load_spec.specs.Draws.{state_after};
ghost use Rattle.load_spec.specs.Load.{message_drawn, place_in_domain, records_size_at, template_set_at};

use crate::put::{put_all, put_draws, put_four, put_two};
use wire_spec::numbers::{LEAST_TEMPLATE_ID, MESSAGE_HEADER, SET_HEADER, VERSION};

/// The template set with A: elements 8, 12, 7, 11, 4, 1 and 2 under the ID 256.
const SET_A: [u8; 36] = [
    0, 2, 0, 36, 1, 0, 0, 7, 0, 8, 0, 4, 0, 12, 0, 4, 0, 7, 0, 2, 0, 11, 0, 2, 0, 4, 0, 1, 0, 1, 0,
    8, 0, 2, 0, 4,
];

/// The template set with B, which has element 152, too.
const SET_B: [u8; 40] = [
    0, 2, 0, 40, 1, 0, 0, 8, 0, 8, 0, 4, 0, 12, 0, 4, 0, 7, 0, 2, 0, 11, 0, 2, 0, 4, 0, 1, 0, 1, 0,
    8, 0, 2, 0, 4, 0, 152, 0, 8,
];

/// The octets of four records of A, and of B.
const RECORDS_A: usize = 4 * 25;

const RECORDS_B: usize = 4 * 33;

/// How many messages of a domain have one template.
const ROUND: u32 = 250;

/// Whether the records at a place have A.
fn has_a(place: u32) -> bool
    ensures { result ≡ (place / 250 % 2 == 0) }
{
    place / ROUND % 2 == 0
}

/// The template set of the message at a place, if it has one.
fn template_set(place: u32) -> &'static [u8]
    ensures set { result.now ≡ template_set_at place }
    ensures size { length result.now ≤ 40 }
{
    if !place.is_multiple_of(ROUND) {
        &[]
    } else if has_a(place) {
        &SET_A
    } else {
        &SET_B
    }
}

/// How many octets the records at a place have.
fn records_size(place: u32) -> usize
    ensures size { result ≡ records_size_at place }
    ensures most { result ≤ 132 }
{
    if has_a(place) { RECORDS_A } else { RECORDS_B }
}

/// Puts the header of message `number`, whose sets have so many octets.
fn put_header(number: u32, sets: usize, room: &mut [u8])
    requires number { number < 1000000 }
    requires sets { 16 + sets ≤ 65535 }
    requires room { 16 ≤ length room.old }
    ensures { take 16 room.new ≡ two_octets 10 ++ two_octets (16 + sets) ++ four_octets (1000 + number) ++ four_octets (4 * place_in_domain number) ++ four_octets (1 + number % 4) }
{
    put_two(VERSION, room, 0);
    put_two((MESSAGE_HEADER + sets) as u16, room, 2);
    put_four(1000 + number, room, 4);
    put_four(4 * (number / 4), room, 8);
    put_four(1 + number % 4, room, 12);
}

/// Puts the header of a data set whose records have so many octets.
fn put_set_header(records: usize, room: &mut [u8], at: usize)
    requires records { 4 + records ≤ 65535 }
    requires room { at + 4 ≤ length room.old }
    ensures { take (at + 4) room.new ≡ take at room.old ++ (two_octets 256 ++ two_octets (4 + records)) }
{
    put_two(LEAST_TEMPLATE_ID, room, at);
    put_two((SET_HEADER + records) as u16, room, at + 2);
}

/// Puts message `number`, whose records are drawn from the state, to the front of the room, and answers its size.
pub fn put_message(number: u32, state: &mut u64, room: &mut [u8]) -> usize
    requires number { number < 1000000 }
    requires room { 65535 ≤ length room.old }
    ensures message { take result room.new ≡ message_drawn state.old number }
    ensures size { (1 ≤ result) × (result ≤ 65535) }
    ensures state { state.new ≡ state_after (records_size_at (place_in_domain number)) state.old }
{
    let place = number / 4;
    let template = template_set(place);
    let records = records_size(place);
    let sets = template.len() + SET_HEADER + records;
    put_header(number, sets, room);
    let at = put_all(template, room, MESSAGE_HEADER);
    put_set_header(records, room, at);
    *state = put_draws(*state, records, room, at + SET_HEADER);
    MESSAGE_HEADER + sets
}
