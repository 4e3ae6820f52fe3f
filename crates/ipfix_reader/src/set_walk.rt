// Goes over the sets of a message.
ghost use Rattle.std.specs.Prelude.{◌≡◌, ◌≤◌, ◌<◌, ◌+◌, ◌^◌, length, drop, take};
ghost use Rattle.std.specs.Iterator.{at_most};
ghost use Rattle.col_base.specs.Numbers.{be16_at};
ghost use Rattle.wire_spec.specs.Message.{IsBody, kind_of, set_size};
ghost use Rattle.ipfix_reader.specs.Walk.{AreSomeSets, IsSized, GivesSetOf};

use crate::items::behind;
use crate::raw::RawSet;
use col_base::be16;
use wire_spec::numbers::{MESSAGE_HEADER, SET_HEADER};

/// Goes over the sets of a message, in order. It has the message, and the place of what is left of it.
#[derive(Drop)]
pub struct Sets<'a> {
    message: &'a [u8],
    at: u32,
    ghost inside: { (16 ≤ at) × (at ≤ length message.now) × (length message.now < 2 ^ 16) },
    ghost whole: { ∥ AreSomeSets (drop at message.now) ∥₁ },
}

impl<'a> Sets<'a> {
    /// Over all sets of a message.
    pub(crate) fn new(message: &'a [u8]) -> Self
        requires front { 16 ≤ length message.now }
        requires short { length message.now < 2 ^ 16 }
        requires whole { ∥ AreSomeSets (drop 16 message.now) ∥₁ }
        ensures message { result.message.now ≡ message.now }
        ensures at { result.at ≡ 16 }
    {
        Sets {
            message,
            at: MESSAGE_HEADER as u32,
        }
    }
}

/// The first set of octets that are sets.
fn first_set(octets: &[u8]) -> &[u8]
    requires some { 0 < length octets.now }
    requires whole { ∥ AreSomeSets octets.now ∥₁ }
    ensures is { result.now ≡ take (length result.now) octets.now }
    ensures least { 4 ≤ length result.now }
    ensures inside { length result.now ≤ length octets.now }
    ensures sized { IsSized result.now }
    ensures body { ∥ IsBody (kind_of (be16_at 0 result.now)) (drop 4 result.now) ∥₁ }
    ensures rest { ∥ AreSomeSets (drop (length result.now) octets.now) ∥₁ }
{
    &octets[..be16(octets, 2) as usize]
}

/// The octets of a set behind its header.
fn body_of(set: &[u8]) -> &[u8]
    requires { 4 ≤ length set.now }
    ensures { result.now ≡ drop 4 set.now }
{
    &set[SET_HEADER..]
}

impl<'a> Iterator for Sets<'a> {
    ghost use Rattle.ipfix_reader.specs.Left.{sets_left, place_of, message_walked};

    type Item = RawSet<'a>;

    ghost next_gives = { λ s r t. GivesSetOf (message_walked s) (place_of s) (sets_left s) r (place_of t) (sets_left t) × (message_walked t ≡ message_walked s) };

    ghost remaining = { λ s. at_most (length (sets_left s)) };

    fn next(&mut self) -> Option<RawSet<'a>> {
        let rest = behind(self.message, self.at as usize);
        if rest.is_empty() {
            return None;
        }
        let set = first_set(rest);
        let at = self.at;
        self.at = at + set.len() as u32;
        Some(RawSet {
            id: be16(set, 0),
            at,
            body: body_of(set),
        })
    }
}
