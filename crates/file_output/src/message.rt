// The messages of a file (RFC 7011, sections 3.1 to 3.4).
ghost use Rattle.std.specs.Prelude.{◌≡◌, ◌≤◌, ◌<◌, ◌+◌, ◌/◌, ◌%◌, ◌++◌, ◌∷◌, [], ◌^◌, length, map, flat_map, drop, true, OnOk, OnErr};
ghost use Rattle.std.specs.List.{All, list_any};
ghost use Rattle.wire_spec.specs.Message.{front, set_id};
ghost use Rattle.wire_spec.specs.Specifiers.{two_octets, four_octets, specifiers};
ghost use Rattle.template_def.specs.Kept.{AppendsFront, IsKept};
ghost use Rattle.template_spec.specs.Same.{same_definition};
ghost use Rattle.file_spec.specs.File.{message_of, set_of, scope_octets, template_of, place_of};
ghost use Rattle.file_output.specs.Sets.{Body, Grows, IsIn, message_in, template_in, set_in, data_in, sets_size};

use crate::head::Head;
use crate::known::Known;
use crate::records::SetRecords;
use crate::used::Used;
use col_base::{Kind, Octets, WantOfMemory};
use std::alloc::AllocError;
use std::sync::Arc;
use template_def::Definition;
use wire_spec::numbers::{
    MESSAGE_HEADER, OPTIONS_TEMPLATE_HEADER, OPTIONS_TEMPLATE_SET, SET_HEADER, TEMPLATE_HEADER,
    TEMPLATE_SET, VERSION,
};

/// The first of the two octets of a number.
fn high(number: u16) -> u8
    ensures { result ≡ number / 256 }
{
    (number / 256) as u8
}

/// The second of the two octets of a number.
fn low(number: u16) -> u8
    ensures { result ≡ number % 256 }
{
    (number % 256) as u8
}

/// Appends two numbers of two octets.
fn put_pair(first: u16, second: u16, out: &mut Octets) -> Result<(), AllocError>
    ensures ok { OnOk result (out.new ≡ out.old ++ (two_octets first ++ two_octets second)) }
    ensures err { OnErr result (out.new ≡ out.old) }
{
    out.extend(&[high(first), low(first), high(second), low(second)])
}

/// Appends a number of four octets.
fn put_four(number: u32, out: &mut Octets) -> Result<(), AllocError>
    ensures ok { OnOk result (out.new ≡ out.old ++ four_octets number) }
    ensures err { OnErr result (out.new ≡ out.old) }
{
    let (above, below) = ((number / 65536) as u16, (number % 65536) as u16);
    put_pair(above, below, out)
}

/// Appends the header of a message whose sets have so many octets. Where memory is wanted some octets may
/// be appended.
fn put_head(head: Head, sets: usize, out: &mut Octets) -> Result<(), AllocError>
    requires { 16 + sets ≤ 65535 }
    ensures ok { OnOk result (out.new ≡ out.old ++ (two_octets 10 ++ two_octets (16 + sets)) ++ four_octets head.export ++ four_octets head.sequence ++ four_octets head.domain) }
    ensures err { OnErr result (Grows out.old out.new) }
{
    put_pair(VERSION, (MESSAGE_HEADER + sets) as u16, out)?;
    put_four(head.export, out)?;
    put_four(head.sequence, out)?;
    put_four(head.domain, out)?;
    Ok(())
}

/// The ID of the sets of a kind of template records (RFC 7011, section 3.3.2).
fn set_id(kind: Kind) -> u16
    ensures { result ≡ set_id kind }
{
    match kind {
        Kind::Template => TEMPLATE_SET,
        Kind::Options => OPTIONS_TEMPLATE_SET,
    }
}

/// The octets of a kind of template records before their specifiers (RFC 7011, sections 3.4.1 and 3.4.2.2).
fn front(kind: Kind) -> usize
    ensures { result ≡ front kind }
{
    match kind {
        Kind::Template => TEMPLATE_HEADER,
        Kind::Options => OPTIONS_TEMPLATE_HEADER,
    }
}

/// The number of a definition's fields.
#[tactic(auto, using(wire_spec::proofs::WrittenLemmas::written_least))]
fn count_fields(definition: &Definition) -> u16
    ensures { result ≡ length definition.now.fields }
{
    definition.fields().len() as u16
}

/// Appends the number of scope fields of an options template.
fn put_scope(definition: &Definition, out: &mut Octets) -> Result<(), AllocError>
    ensures ok { OnOk result (out.new ≡ out.old ++ scope_octets definition.now.kind definition.now.scope) }
    ensures err { OnErr result (out.new ≡ out.old) }
{
    match definition.kind() {
        Kind::Template => Ok(()),
        Kind::Options => {
            let scope = definition.scope();
            out.extend(&[high(scope), low(scope)])
        }
    }
}

/// Appends the message of a definition's template record. Where memory is wanted some octets may be appended.
pub fn put_template(
    head: Head,
    number: u16,
    definition: &Definition,
    out: &mut Octets,
) -> Result<(), WantOfMemory>
    ensures ok { OnOk result (out.new ≡ out.old ++ message_in head (set_of (set_id definition.now.kind) (template_of number definition.now))) }
    ensures err { OnErr result (Grows out.old out.new) }
{
    let kind = definition.kind();
    let size = SET_HEADER + front(kind) + definition.specs_len() as usize;
    put_head(head, size, out)?;
    put_pair(set_id(kind), size as u16, out)?;
    put_pair(number, count_fields(definition), out)?;
    put_scope(definition, out)?;
    definition.put_specs(out)?;
    Ok(())
}

/// Appends the message of a definition that is known. Where memory is wanted some octets may be appended.
fn put_known(head: Head, known: &Known, used: &Used, out: &mut Octets) -> Result<(), WantOfMemory>
    requires known { list_any (same_definition used.now) known.now ≡ true }
    requires few { 255 + length known.now ≤ 65535 }
    ensures ok { OnOk result (out.new ≡ out.old ++ template_in head known.now used.now) }
    ensures err { OnErr result (Grows out.old out.new) }
{
    let number = known.number(&used.definition)?;
    put_template(head, number, &used.definition, out)?;
    Ok(())
}

/// Appends the messages of definitions that are known, in order. Where memory is wanted some octets may be appended.
pub fn put_templates(
    head: Head,
    known: &Known,
    new: &[Used],
    out: &mut Octets,
) -> Result<(), WantOfMemory>
    requires known { All (λ d. list_any (same_definition d) known.now ≡ true) new.now }
    requires few { 255 + length known.now ≤ 65535 }
    ensures ok { OnOk result (out.new ≡ out.old ++ flat_map (template_in head known.now) new.now) }
    ensures err { OnErr result (Grows out.old out.new) }
{
    for used in new {
        put_known(head, known, used, out)?;
    }
    Ok(())
}

/// The octets of data sets with their headers.
fn count_octets<S: SetRecords>(sets: &[S]) -> usize
    requires { 16 + sets_size S.body sets.now ≤ 65535 }
    ensures { result ≡ sets_size S.body sets.now }
{
    let mut size = 0;
    for set in sets {
        size += SET_HEADER + set.size();
    }
    size
}

/// Appends a data set. Where memory is wanted some octets may be appended.
fn put_set<S: SetRecords>(known: &Known, set: &S, out: &mut Octets) -> Result<(), WantOfMemory>
    requires known { IsIn known.now (S.body set.now) }
    requires few { 255 + length known.now ≤ 65535 }
    requires room { 4 + length (S.body set.now).octets ≤ 65535 }
    ensures ok { OnOk result (out.new ≡ out.old ++ set_in known.now (S.body set.now)) }
    ensures err { OnErr result (Grows out.old out.new) }
{
    let number = known.number(set.definition())?;
    put_pair(number, (SET_HEADER + set.size()) as u16, out)?;
    set.put(out)?;
    Ok(())
}

/// Appends data sets. Where memory is wanted some octets may be appended.
fn put_sets<S: SetRecords>(known: &Known, sets: &[S], out: &mut Octets) -> Result<(), WantOfMemory>
    requires known { All (λ s. IsIn known.now (S.body s)) sets.now }
    requires few { 255 + length known.now ≤ 65535 }
    requires room { 16 + sets_size S.body sets.now ≤ 65535 }
    ensures ok { OnOk result (out.new ≡ out.old ++ flat_map (λ s. set_in known.now (S.body s)) sets.now) }
    ensures err { OnErr result (Grows out.old out.new) }
{
    for set in sets {
        put_set(known, set, out)?;
    }
    Ok(())
}

/// Appends the message of data sets, if there are any. Where memory is wanted some octets may be appended.
pub fn put_data<S: SetRecords>(
    head: Head,
    known: &Known,
    sets: &[S],
    out: &mut Octets,
) -> Result<(), WantOfMemory>
    requires known { All (λ s. IsIn known.now (S.body s)) sets.now }
    requires few { 255 + length known.now ≤ 65535 }
    requires room { 16 + sets_size S.body sets.now ≤ 65535 }
    ensures ok { OnOk result (out.new ≡ out.old ++ data_in S.body head known.now sets.now) }
    ensures err { OnErr result (Grows out.old out.new) }
{
    if sets.is_empty() {
        return Ok(());
    }
    put_head(head, count_octets(sets), out)?;
    put_sets(known, sets, out)?;
    Ok(())
}
