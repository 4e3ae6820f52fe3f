// Checks whether octets are a message.
ghost use Rattle.std.specs.Prelude.{◌≡◌, ◌≤◌, ◌<◌, ◌^◌, IfNone, MatchResult, length};
ghost use Rattle.wire_spec.specs.Message.{FirstFault, first_broken, header_rules};
ghost use Rattle.ipfix_reader.specs.Walk.{IsSomeMessage};
ghost use Rattle.ipfix_reader.specs.Octets.{octets_of};

use crate::items::check_row;
use crate::message::{Message, sets_of};
use crate::set_rules::SetsInMessage;
use col_base::be16;
use wire_spec::numbers::{MESSAGE_HEADER, VERSION};
use wire_spec::{Malformed, MalformedKind};

/// The first rule that the header breaks.
fn header_fault(octets: &[u8]) -> Option<Malformed>
    ensures fault { result ≡ first_broken header_rules octets.now }
    ensures front { IfNone result ((16 ≤ length octets.now) × (length octets.now < 2 ^ 16)) }
{
    if octets.len() < MESSAGE_HEADER {
        return Some(Malformed {
            kind: MalformedKind::Short,
            at: 0,
        });
    }
    if be16(octets, 0) != VERSION {
        return Some(Malformed {
            kind: MalformedKind::Version,
            at: 0,
        });
    }
    if be16(octets, 2) as usize != octets.len() {
        return Some(Malformed {
            kind: MalformedKind::Length,
            at: 2,
        });
    }
    None
}

/// The message that the octets are, or the first rule that they break, and where. It takes no memory.
pub fn check(octets: &[u8]) -> Result<Message<'_>, Malformed>
    ensures { MatchResult result
        (λ message. (octets_of message ≡ octets.now) × IsSomeMessage octets.now)
        (λ fault. FirstFault octets.now fault) }
{
    if let Some(fault) = header_fault(octets) {
        return Err(fault);
    }
    match check_row(&SetsInMessage, sets_of(octets)) {
        Ok(()) => Ok(Message::new(octets)),
        Err(fault) => Err(Malformed {
            kind: fault.kind,
            at: MESSAGE_HEADER as u32 + fault.at,
        }),
    }
}
