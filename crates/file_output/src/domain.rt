// The numbers of one observation domain.
ghost use Rattle.std.specs.Prelude.{◌≡◌, ◌≤◌, ◌<◌, ◌+◌, ◌%◌, ◌^◌, ◌++◌, [], drop, flat_map, length, map, find, max, nat_lt, true, None, Some, IfOk, IfErr, OnOk, OnErr, List, ℕ};
ghost use Rattle.std.specs.List.{All};
ghost use Rattle.wire_spec.specs.Content.{Definition};
ghost use Rattle.file_output.specs.Fault.{AtLimit};
ghost use Rattle.file_output.specs.Sets.{IsIn, Grows, count_records, data_in, template_in, domain_after, head_in, known_after, numbers_in, sets_size, written_in};

use crate::fault::FileFault;
use crate::head::Head;
use crate::known::Known;
use crate::message::{put_data, put_templates};
use crate::records::SetRecords;
use col_base::{Octets, WantOfMemory};
use std::alloc::Global;
use std::marker::Model;

/// The definitions of a domain that have numbers, and the sequence number of its next message.
#[derive(Drop)]
pub struct DomainNumbers {
    known: Known,
    sequence: u32,
}

impl Model for DomainNumbers {
    ghost use Rattle.file_output.specs.Sets.{Domain};

    ghost Value = { Domain };

    ghost view = { λ d. record { known = d.known; sequence = d.sequence } };
}

/// Gives the definitions of sets their numbers. Refused where one needs a number above the last that is allowed, or where
/// memory is wanted: then some may have theirs.
fn enter_all<S: SetRecords>(known: &mut Known, sets: &[S], last: u16) -> Result<(), FileFault>
    requires { 255 + length known.old ≤ max 255 last }
    ensures ok { OnOk result (known.new ≡ known_after S.body known.old sets.now) }
    ensures room { OnOk result (255 + length known.new ≤ max 255 last) }
    ensures known { OnOk result (All (λ s. IsIn known.new (S.body s)) sets.now) }
    ensures enough { OnOk result (find (nat_lt last) (numbers_in S.body known.old sets.now) ≡ None) }
    ensures limit { IfErr result (AtLimit (λ n. find (nat_lt last) (numbers_in S.body known.old sets.now) ≡ Some n)) }
    ensures front { (more : List Definition) × (known.new ≡ known.old ++ more) }
{
    for set in sets {
        match known.enter(set.definition(), last) {
            Ok(()) => {}
            Err(fault) => return Err(fault),
        }
    }
    Ok(())
}

/// The sequence number behind so many records (RFC 7011, section 3.1).
fn advance<S: SetRecords>(sequence: u32, sets: &[S]) -> u32
    ensures { result ≡ (sequence + count_records S.body sets.now) % 2 ^ 32 }
{
    let mut next = sequence;
    for set in sets {
        next = next.wrapping_add(set.count());
    }
    next
}

/// Appends the messages of the definitions behind the first ones, and the message of the sets. Where memory is wanted
/// some octets may be appended.
fn put_messages<S: SetRecords>(
    head: Head,
    known: &Known,
    first: usize,
    sets: &[S],
    out: &mut Octets,
) -> Result<(), WantOfMemory>
    requires first { first ≤ length known.now }
    requires known { All (λ s. IsIn known.now (S.body s)) sets.now }
    requires few { 255 + length known.now ≤ 65535 }
    requires room { 16 + sets_size S.body sets.now ≤ 65535 }
    ensures ok { OnOk result (out.new ≡ out.old ++ (flat_map (template_in head known.now) (drop first known.now) ++ data_in S.body head known.now sets.now)) }
    ensures err { OnErr result (Grows out.old out.new) }
{
    put_templates(head, known, known.behind(first), out)?;
    put_data(head, known, sets, out)?;
    Ok(())
}

/// Takes sets of a message, and appends what is written of them. Where it is refused, some definitions may have got
/// numbers, and some octets may be appended.
fn write<S: SetRecords>(
    head: Head,
    known: &mut Known,
    sets: &[S],
    last: u16,
    out: &mut Octets,
) -> Result<(), FileFault>
    requires room { 16 + sets_size S.body sets.now ≤ 65535 }
    requires few { 255 + length known.old ≤ max 255 last }
    ensures ok { OnOk result (out.new ≡ out.old ++ written_in S.body head known.old sets.now) }
    ensures known { OnOk result (known.new ≡ known_after S.body known.old sets.now) }
    ensures few { OnOk result (255 + length known.new ≤ max 255 last) }
    ensures enough { OnOk result (find (nat_lt last) (numbers_in S.body known.old sets.now) ≡ None) }
    ensures limit { IfErr result (AtLimit (λ n. find (nat_lt last) (numbers_in S.body known.old sets.now) ≡ Some n)) }
    ensures front { (more : List Definition) × (known.new ≡ known.old ++ more) }
    ensures grows { OnErr result (Grows out.old out.new) }
{
    let first = known.len();
    match enter_all(known, sets, last) {
        Ok(()) => {}
        Err(fault) => return Err(fault),
    }
    match put_messages(head, known, first, sets, out) {
        Ok(()) => Ok(()),
        Err(_) => Err(FileFault::NoMemory),
    }
}

impl DomainNumbers {
    /// No definition and no record. It takes no memory.
    pub fn new(alloc: Global) -> Self
        ensures { result ≡ record { known = []; sequence = 0 } }
    {
        DomainNumbers {
            known: Known::new(alloc),
            sequence: 0,
        }
    }

    /// Takes the sets of a message, and appends what is written of them. Where it is refused nothing changes.
    pub fn put<S: SetRecords>(
        &mut self,
        domain: u32,
        export: u32,
        sets: &[S],
        last: u16,
        out: &mut Octets,
    ) -> Result<(), FileFault>
        requires room { 16 + sets_size S.body sets.now ≤ 65535 }
        requires few { 255 + length self.old.known ≤ max 255 last }
        ensures ok { OnOk result (out.new ≡ out.old ++ written_in S.body (head_in export domain self.old) self.old.known sets.now) }
        ensures after { OnOk result (self.new ≡ domain_after S.body self.old sets.now) }
        ensures few { 255 + length self.new.known ≤ max 255 last }
        ensures enough { OnOk result (find (nat_lt last) (numbers_in S.body self.old.known sets.now) ≡ None) }
        ensures limit { IfErr result (AtLimit (λ n. find (nat_lt last) (numbers_in S.body self.old.known sets.now) ≡ Some n)) }
        ensures kept { OnErr result (self.new ≡ self.old) }
        ensures unwritten { OnErr result (out.new ≡ out.old) }
    {
        let head = Head {
            export,
            sequence: self.sequence,
            domain,
        };
        let first = self.known.len();
        let size = out.len();
        match write(head, &mut self.known, sets, last, out) {
            Ok(()) => {
                self.sequence = advance(self.sequence, sets);
                Ok(())
            }
            Err(fault) => {
                self.known.truncate(first);
                out.truncate(size);
                Err(fault)
            }
        }
    }
}
