// The rules of sets (RFC 7011, sections 3.3.2 and 9.1).
ghost use Rattle.std.specs.Prelude.{◌≡◌, ◌≤◌, ◌<◌, ◌^◌, ◌+◌, IfErr, MatchResult, MatchOption, Some, None, length, drop, take};
ghost use Rattle.wire_spec.specs.Message.{IsSet, IsNothing, BreaksSet, IsBody, BreaksBody, kind_of, set_size, set_rules, first_broken};
ghost use Rattle.wire_spec.specs.declared.malformed.MalformedKind.TheVariants.{SetLength};

use crate::items::{Items, check_row};
use crate::template_rules::TemplatesInSet;
use col_base::{Kind, be16};
use wire_spec::numbers::{OPTIONS_TEMPLATE_SET, SET_HEADER, TEMPLATE_SET};
use wire_spec::{Malformed, MalformedKind};

/// The sets of a message.
#[derive(Drop)]
pub struct SetsInMessage;

/// The kind of the template records in sets of an ID. None exactly where they have none.
pub fn kind_of(id: u16) -> Option<Kind>
    ensures { result ≡ kind_of id }
{
    match id {
        TEMPLATE_SET => Some(Kind::Template),
        OPTIONS_TEMPLATE_SET => Some(Kind::Options),
        _ => None,
    }
}

/// Whether the octets are the body of a set of an ID, or the first fault.
fn check_body(id: u16, body: &[u8]) -> Result<(), Malformed>
    requires { length body.now < 2 ^ 16 }
    ensures body { MatchResult result (λ _. IsBody (kind_of id) body.now) (λ fault. BreaksBody (kind_of id) body.now fault) }
    ensures inside { IfErr result (λ fault. fault.at ≤ length body.now) }
{
    match kind_of(id) {
        Some(kind) => check_row(&TemplatesInSet { kind }, body),
        None => Ok(()),
    }
}

/// The length of the set that begins the octets. None exactly where its header is cut, or says a length that
/// can't be.
fn size_of(octets: &[u8]) -> Option<usize>
    ensures { MatchOption result (first_broken set_rules octets.now ≡ Some (record { kind = SetLength; at = 0 }))
        (λ size. (first_broken set_rules octets.now ≡ None) × (size ≡ set_size octets.now) × (4 ≤ size) × (size ≤ length octets.now)) }
{
    if octets.len() < SET_HEADER {
        return None;
    }
    let size = be16(octets, 2) as usize;
    if size < SET_HEADER || octets.len() < size {
        return None;
    }
    Some(size)
}

/// The body of a set of so many octets.
fn body_of(octets: &[u8], size: usize) -> &[u8]
    requires least { 4 ≤ size }
    requires inside { size ≤ length octets.now }
    ensures is { result.now ≡ drop 4 (take size octets.now) }
    ensures short { length result.now + 4 ≤ length octets.now }
{
    let set = &octets[..size];
    &set[SET_HEADER..]
}

impl Items for SetsInMessage {
    ghost is = { λ _. IsSet };

    ghost ends = { λ _. IsNothing };

    ghost breaks = { λ _. BreaksSet };

    fn at_end(&self, octets: &[u8]) -> bool {
        octets.is_empty()
    }

    fn first(&self, octets: &[u8]) -> Result<usize, Malformed> {
        let Some(size) = size_of(octets) else {
            return Err(Malformed {
                kind: MalformedKind::SetLength,
                at: 0,
            });
        };
        match check_body(be16(octets, 0), body_of(octets, size)) {
            Ok(()) => Ok(size),
            Err(fault) => Err(Malformed {
                kind: fault.kind,
                at: SET_HEADER as u32 + fault.at,
            }),
        }
    }
}
