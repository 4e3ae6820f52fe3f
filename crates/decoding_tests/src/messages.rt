// Tests, and a caller that walks over a message.
ghost use Rattle.std.specs.Prelude.{◌≡◌, ◌++◌, List, ℕ, IfOk};
ghost use Rattle.wire_spec.specs.Content.{Part, Says};
ghost use Rattle.ipfix_reader.specs.Walk.{RawSays, message_of};
ghost use Rattle.ipfix_reader.specs.Octets.{octets_of};
ghost use Rattle.decoding_tests.specs.DefinedIds.{ids_of, defined_ids};

use col_base::Kind;
use ipfix_reader::{Header, Malformed, MalformedKind, Message, RawSet, check, template_records};
use sample_messages::ONE_FLOW;
use std::alloc::{AllocError, Global};
use std::test::Fail;
use wire_spec::MalformedKind::{Length, Short, Version};

/// Adds the IDs that a set defines.
fn push_ids(set: RawSet<'_>, ids: &mut Vec<u16>) -> Result<(), AllocError>
    ensures { IfOk result (λ _. (part : Part) × RawSays set.entry part × (ids.new.items ≡ ids.old.items ++ ids_of part)) }
{
    if set.id != 2 && set.id != 3 {
        return Ok(());
    }
    for template in template_records(set) {
        if template.count != 0 {
            ids.push(template.id)?;
        }
    }
    Ok(())
}

/// The IDs that a message defines, in order.
fn ids_in(alloc: Global, message: &Message<'_>) -> Result<Vec<u16>, AllocError>
    ensures { IfOk result (λ ids. (parts : List Part) × Says (octets_of message.now) (message_of (octets_of message.now) parts) × (ids.items ≡ defined_ids parts)) }
{
    let mut ids = Vec::new(alloc);
    for set in message.sets() {
        push_ids(set, &mut ids)?;
    }
    Ok(ids)
}

/// The value of a hexadecimal digit.
fn digit_of(character: u8) -> Option<u8> {
    match character {
        b'0'..=b'9' => Some(character.wrapping_sub(b'0')),
        b'a'..=b'f' => Some(character.wrapping_sub(b'a').wrapping_add(10)),
        _ => None,
    }
}

/// The octets that a text spells in hexadecimal digits.
fn octets_of(alloc: Global, text: &str) -> Result<Vec<u8>, AllocError> {
    let mut octets = Vec::new(alloc);
    let mut high: Option<u8> = None;
    for character in text.as_bytes() {
        let Some(digit) = digit_of(*character) else {
            continue;
        };
        match high {
            None => {
                high = Some(digit);
            }
            Some(first) => {
                octets.push(first.wrapping_mul(16).wrapping_add(digit))?;
                high = None;
            }
        }
    }
    Ok(octets)
}

/// How many definitions and how many withdrawals stand in a message, or its first fault.
fn counts_of(octets: &[u8]) -> Result<(u32, u32), Malformed> {
    let message = check(octets)?;
    let mut definitions: u32 = 0;
    let mut withdrawals: u32 = 0;
    for set in message.sets() {
        if set.id == 2 || set.id == 3 {
            for template in template_records(set) {
                if template.count == 0 {
                    withdrawals = withdrawals.saturating_add(1);
                } else {
                    definitions = definitions.saturating_add(1);
                }
            }
        }
    }
    Ok((definitions, withdrawals))
}

fn broken(kind: MalformedKind, at: u32) -> Option<Malformed> {
    Some(Malformed { kind, at })
}

/// What octets are told to be, and the octets in hexadecimal: a message, or the first rule that they break with the place.
const TOLD: &str = "\
# a message has sixteen octets
Short 0: 
Short 0: 000a0010 00000064 00000000 000000
message: 000a0010 00000064 00000000 00000001
# the version is ten
Version 0: 00090010 00000064 00000000 00000001
# the length is the number of octets
Length 2: 000a0011 00000064 00000000 00000001
Length 2: 000a0010 00000064 00000000 00000001 01000004
# a set has a header and lies in the message
SetLength 16: 000a0013 00000064 00000000 00000001 000200
SetLength 16: 000a0014 00000064 00000000 00000001 00020003
SetLength 16: 000a0014 00000064 00000000 00000001 00020005
SetLength 21: 000a0019 00000064 00000000 00000001 0100000500 00ff0003
message: 000a0018 00000064 00000000 00000001 00ff0004 01000004
# template ids begin at 256
TemplateId 20: 000a001c 00000064 00000000 00000001 0002000c 00ff0001 00080004
TemplateId 20: 000a0018 00000064 00000000 00000001 00020008 00ff0000
TemplateId 20: 000a0018 00000064 00000000 00000001 00020008 00030000
TemplateId 20: 000a0018 00000064 00000000 00000001 00030008 00020000
TemplateId 20: 000a001c 00000064 00000000 00000001 0002000c 00020001 00080004
message: 000a0018 00000064 00000000 00000001 00020008 00020000
message: 000a0018 00000064 00000000 00000001 00030008 00030000
message: 000a0018 00000064 00000000 00000001 00020008 01000000
# a scope count lies in the set
FieldCut 20: 000a0018 00000064 00000000 00000001 00030008 01010001
FieldCut 20: 000a0019 00000064 00000000 00000001 00030009 01010001 00
# a scope count is from one to the field count
ScopeCount 20: 000a001e 00000064 00000000 00000001 0003000e 01010001 0000 00080004
ScopeCount 20: 000a001e 00000064 00000000 00000001 0003000e 01010001 0002 00080004
message: 000a001e 00000064 00000000 00000001 0003000e 01010001 0001 00080004
# a specifier lies in the set
FieldCut 20: 000a001c 00000064 00000000 00000001 0002000c 01000002 00080004
FieldCut 20: 000a001b 00000064 00000000 00000001 0002000b 01000001 000800
FieldCut 20: 000a001c 00000064 00000000 00000001 0002000c 01000001 80070002
message: 000a0020 00000064 00000000 00000001 00020010 01000001 80070002 00000009
FieldCut 20: 000a0020 00000064 00000000 00000001 00030010 01010002 0001 00080004 8007
# the shortest record has an octet
EmptyRecord 20: 000a001c 00000064 00000000 00000001 0002000c 01000001 00010000
EmptyRecord 20: 000a0020 00000064 00000000 00000001 00020010 01000002 00010000 00020000
EmptyRecord 20: 000a001e 00000064 00000000 00000001 0003000e 01010001 0001 00080000
message: 000a0020 00000064 00000000 00000001 00020010 01000002 00010000 0052ffff
# a fault is at its record
TemplateId 32: 000a0028 00000064 00000000 00000001 00020018 01000001 00080004 01000000 00ff0001 00080004
EmptyRecord 34: 000a002a 00000064 00000000 00000001 01000006 ffff 00020014 01000001 00080004 01010001 00010000
# the first rule that is broken counts
Version 0: 00090003 00000064 00000000 00000001 000200
Length 2: 000a0014 00000064 00000000 00000001 000200
TemplateId 20: 000a001e 00000064 00000000 00000001 0002000c 00ff0001 00010000 00ff
TemplateId 20: 000a001e 00000064 00000000 00000001 0003000e 00ff0001 0000 00080004
ScopeCount 20: 000a001e 00000064 00000000 00000001 0003000e 01010001 0000 00080000
ScopeCount 20: 000a001e 00000064 00000000 00000001 0003000e 01010002 0003 00080004
FieldCut 20: 000a001c 00000064 00000000 00000001 0002000c 01000002 00010000
EmptyRecord 20: 000a0020 00000064 00000000 00000001 0002000c 01000001 00010000 01000003
SetLength 16: 000a0020 00000064 00000000 00000001 01000003 0002000c 00ff0001 00080004
# padding is short or zeros
message: 000a001f 00000064 00000000 00000001 0002000f 01000001 00080004 ffffff
message: 000a0024 00000064 00000000 00000001 00020014 01000001 00080004 00000000 00000000
TemplateId 28: 000a0020 00000064 00000000 00000001 00020010 01000001 00080004 00000001
message: 000a0014 00000064 00000000 00000001 00020004
message: 000a0017 00000064 00000000 00000001 00020007 ffffff
";

#[test]
fn octets_have_their_first_fault(rt: HostRuntime) -> Result<(), Fail> {
    let mut count: u32 = 0;
    for line in TOLD.lines() {
        if let Some((told, text)) = line.split_once(": ") {
            count = count.saturating_add(1);
            let octets = octets_of(rt.alloc(), text)?;
            let found = match check(&octets) {
                Ok(_) => String::from_str(rt.alloc(), "message")?,
                Err(fault) => format!(in rt.alloc(); "{:?} {}", fault.kind, fault.at)?,
            };
            assert_eq!(rt; found.as_str(), told, "{text}");
        }
    }
    assert_eq!(rt; count, 49);
    Ok(())
}

#[test]
fn the_longest_message_is_checked(rt: HostRuntime) -> Result<(), AllocError> {
    let mut octets = octets_of(rt.alloc(), "000affff 00000064 00000000 00000001 0002ffef")?;
    for _ in 0..16378 {
        octets.extend_from_slice(&[1, 0, 0, 0])?;
    }
    octets.extend_from_slice(&[0, 0, 0])?;
    assert_eq!(rt; octets.len(), 65535);
    assert_eq!(rt; counts_of(&octets), Ok((0, 16378)));
    Ok(())
}

#[test]
fn a_flow_that_is_cut_or_turned_is_malformed(rt: HostRuntime) -> Result<(), AllocError> {
    let mut flow = ONE_FLOW.to_vec(rt.alloc())?;
    assert_eq!(rt; counts_of(&flow), Ok((1, 0)));
    let cuts = [(15, broken(Short, 0)), (51, broken(Length, 2))];
    for (size, fault) in cuts {
        let front: Vec<u8> = flow.iter().take(size).copied().collect(rt.alloc())?;
        assert_eq!(rt; counts_of(&front).err(), fault);
    }
    if let Some(octet) = flow.get_mut(1) {
        *octet = 9;
    }
    assert_eq!(rt; counts_of(&flow).err(), broken(Version, 0));
    Ok(())
}

#[test]
fn template_records_are_told_from_padding(rt: HostRuntime) -> Result<(), AllocError> {
    let rows = [
        ("000a0010 00000064 00000000 00000001", (0, 0)),
        (
            "000a0018 00000064 00000000 00000001 00030008 00030000",
            (0, 1),
        ),
        (
            "000a001f 00000064 00000000 00000001 0002000f 01000001 00080004 ffffff",
            (1, 0),
        ),
        (
            "000a0020 00000064 00000000 00000001 00020010 01000001 00080004 00000000",
            (1, 0),
        ),
    ];
    for (text, counts) in rows {
        assert_eq!(rt;
            counts_of(&octets_of(rt.alloc(), text)?),
            Ok(counts),
            "{text}"
        );
    }
    Ok(())
}

#[test]
fn a_message_is_walked_over(rt: HostRuntime) -> Result<(), Fail> {
    let octets = octets_of(
        rt.alloc(),
        "000a0050 00000064 00000007 00000001 00020018 01000001 80070002 00000009 01020001 00080004 0003001c 01010002 0001 00950004 000a0004 01000000 00030000 0000 0101000c 00000001 00000007",
    )?;
    let message = check(&octets).ok().ok_or("no message")?;
    assert_eq!(rt;
        message.header(),
        Header {
            length: 80,
            export: 100,
            seq: 7,
            domain: 1
        }
    );

    let mut sets = message.sets();
    let first = sets.next().ok_or("no first set")?;
    assert_eq!(rt; (first.id, first.at), (2, 16));
    let second = sets.next().ok_or("no second set")?;
    assert_eq!(rt; (second.id, second.at), (3, 40));
    let third = sets.next().ok_or("no third set")?;
    assert_eq!(rt; (third.id, third.at), (257, 68));
    assert_eq!(rt; third.body.len(), 8);
    assert!(rt; sets.next().is_none());
    Ok(())
}

#[test]
fn template_records_are_walked_over(rt: HostRuntime) -> Result<(), Fail> {
    let octets = octets_of(
        rt.alloc(),
        "000a002c 00000064 00000007 00000001 0003001c 01010002 0001 00950004 000a0004 01000000 00030000 0000",
    )?;
    let message = check(&octets).ok().ok_or("no message")?;
    let set = message.sets().next().ok_or("no set")?;
    assert_eq!(rt; set.id, 3);
    let mut templates = template_records(set);
    let first = templates.next().ok_or("no definition")?;
    assert_eq!(rt; first.kind, Kind::Options);
    assert_eq!(rt; (first.id, first.scope, first.count), (257, 1, 2));
    assert_eq!(rt; first.specs.len(), 8);
    let second = templates.next().ok_or("no withdrawal")?;
    assert_eq!(rt; (second.id, second.scope, second.count), (256, 0, 0));
    assert_eq!(rt; second.specs.len(), 0);
    let third = templates.next().ok_or("no withdrawal of all")?;
    assert_eq!(rt; (third.id, third.count), (3, 0));
    assert!(rt; templates.next().is_none());
    Ok(())
}

#[test]
fn defined_ids_are_collected(rt: HostRuntime) -> Result<(), Fail> {
    let octets = octets_of(
        rt.alloc(),
        "000a0040 00000064 00000007 00000001 0002001c 01000001 80070002 00000009 01020001 00080004 01030000 00030010 01010001 0001 00950004 0000 01020004",
    )?;
    let message = check(&octets).ok().ok_or("no message")?;
    let ids = ids_in(rt.alloc(), &message)?;
    assert_eq!(rt; ids.as_slice(), [256, 258, 257].as_slice());
    Ok(())
}
