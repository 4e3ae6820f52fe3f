// The rules of template records (RFC 7011, sections 3.4.1, 3.4.2 and 8.1).
ghost use Rattle.std.specs.Prelude.{◌≡◌, ◌==◌, ◌≤◌, ◌<◌, ◌^◌, MatchOption, MatchResult, None, Some, false, length};
ghost use Rattle.std.specs.List.{list_all};
ghost use Rattle.wire_spec.specs.Rows.{Begins};
ghost use Rattle.wire_spec.specs.Message.{specifier_size, specifiers_size, least_of, shortest_of_specifiers, IsTemplateRecord, IsPadding, BreaksTemplateRecord, first_broken, template_rules, template_size, is_padding, set_id, front, has_low_id, cuts_scope, has_wrong_scope};
ghost use Rattle.wire_spec.proofs.ExitLemmas.{IsBegun};
ghost use Rattle.wire_spec.proofs.TemplateLemmas.{at_start};

use crate::items::{Items, behind};
use col_base::{Kind, be16};
use wire_spec::numbers::{
    ENTERPRISE_BIT, ENTERPRISE_SPECIFIER, LEAST_TEMPLATE_ID, OPTIONS_TEMPLATE_HEADER,
    OPTIONS_TEMPLATE_SET, SPECIFIER, TEMPLATE_HEADER, TEMPLATE_SET, VARIABLE_LENGTH,
};
use wire_spec::{Malformed, MalformedKind};

/// The template records of one kind, in a set.
#[derive(Drop)]
pub struct TemplatesInSet {
    pub kind: Kind,
}

/// The ID of the sets of a kind.
fn set_id(kind: Kind) -> u16
    ensures { result ≡ set_id kind }
{
    match kind {
        Kind::Template => TEMPLATE_SET,
        Kind::Options => OPTIONS_TEMPLATE_SET,
    }
}

/// Where the specifiers of a definition begin.
pub fn front(kind: Kind) -> usize
    ensures { result ≡ front kind }
{
    match kind {
        Kind::Template => TEMPLATE_HEADER,
        Kind::Options => OPTIONS_TEMPLATE_HEADER,
    }
}

/// Whether the octets are zeros alone.
fn all_zeros(octets: &[u8]) -> bool
    ensures { result ≡ list_all (λ octet. octet == 0) octets.now }
{
    octets.iter().all(|octet| *octet == 0)
}

/// Whether the octets are padding.
pub fn is_padding(octets: &[u8]) -> bool
    ensures { result ≡ is_padding octets.now }
{
    if octets.len() < TEMPLATE_HEADER {
        return true;
    }
    all_zeros(octets)
}

/// Whether the record has an ID that it can't have.
fn has_low_id(kind: Kind, octets: &[u8]) -> bool
    requires { 4 ≤ length octets.now }
    ensures { result ≡ has_low_id kind octets.now }
{
    let id = be16(octets, 0);
    id < LEAST_TEMPLATE_ID && (be16(octets, 2) != 0 || id != set_id(kind))
}

/// Whether the scope count runs over the end.
fn cuts_scope(kind: Kind, octets: &[u8]) -> bool
    requires { 4 ≤ length octets.now }
    ensures { result ≡ cuts_scope kind octets.now }
{
    match kind {
        Kind::Template => false,
        Kind::Options => be16(octets, 2) != 0 && octets.len() < OPTIONS_TEMPLATE_HEADER,
    }
}

/// Whether the scope count is 0, or above the field count.
fn has_wrong_scope(kind: Kind, octets: &[u8]) -> bool
    requires front { 4 ≤ length octets.now }
    requires scope { cuts_scope kind octets.now ≡ false }
    ensures { result ≡ has_wrong_scope kind octets.now }
{
    match kind {
        Kind::Template => false,
        Kind::Options => {
            let count = be16(octets, 2);
            if count == 0 {
                return false;
            }
            let scope = be16(octets, 4);
            scope == 0 || count < scope
        }
    }
}

/// The octets of a specifier.
fn specifier_size(octets: &[u8]) -> usize
    requires { 2 ≤ length octets.now }
    ensures { result ≡ specifier_size octets.now }
{
    if be16(octets, 0) < ENTERPRISE_BIT {
        SPECIFIER
    } else {
        ENTERPRISE_SPECIFIER
    }
}

/// The fewest octets of a field of this length.
fn least_of(len: u16) -> u32
    ensures is { result ≡ least_of len }
    ensures small { result ≤ 65535 }
{
    if len == VARIABLE_LENGTH {
        1
    } else {
        u32::from(len)
    }
}

/// The octets of so many specifiers, and the shortest record. None exactly where they run over the end.
fn specifiers(count: u16, octets: &[u8]) -> Option<(usize, u32)>
    requires { length octets.now < 2 ^ 16 }
    ensures { MatchOption result (length octets.now < specifiers_size count octets.now)
        (λ found. (found.0 ≡ specifiers_size count octets.now) × (found.0 ≤ length octets.now) × (found.1 ≡ shortest_of_specifiers count octets.now)) }
{
    let mut rest = octets;
    let mut left = count;
    let mut size = 0;
    let mut least = 0;
    while left > 0 {
        if rest.len() < SPECIFIER {
            return None;
        }
        let first = specifier_size(rest);
        if rest.len() < first {
            return None;
        }
        size += first;
        least += least_of(be16(rest, 2));
        rest = behind(rest, first);
        left -= 1;
    }
    Some((size, least))
}

/// The fault of a record that begins here.
fn at_start(kind: MalformedKind) -> Malformed
    ensures { result ≡ at_start kind }
{
    Malformed { kind, at: 0 }
}

/// The octets of a definition whose ID and scope count are right, or the first rule that it breaks.
fn definition(kind: Kind, octets: &[u8]) -> Result<usize, Malformed>
    requires short { length octets.now < 2 ^ 16 }
    requires begun { IsBegun kind octets.now }
    ensures { MatchResult result
        (λ size. (first_broken (template_rules kind) octets.now ≡ None) × (size ≡ template_size kind octets.now) × (size ≤ length octets.now))
        (λ fault. (first_broken (template_rules kind) octets.now ≡ Some fault) × (fault.at ≡ 0)) }
{
    let start = front(kind);
    match specifiers(be16(octets, 2), behind(octets, start)) {
        None => Err(at_start(MalformedKind::FieldCut)),
        Some((size, least)) => {
            if least == 0 {
                Err(at_start(MalformedKind::EmptyRecord))
            } else {
                Ok(start + size)
            }
        }
    }
}

/// The octets of a template record, or the first rule that it breaks.
pub fn template_record(kind: Kind, octets: &[u8]) -> Result<usize, Malformed>
    requires short { length octets.now < 2 ^ 16 }
    requires front { 4 ≤ length octets.now }
    ensures { MatchResult result
        (λ size. (first_broken (template_rules kind) octets.now ≡ None) × (size ≡ template_size kind octets.now) × (size ≤ length octets.now))
        (λ fault. (first_broken (template_rules kind) octets.now ≡ Some fault) × (fault.at ≡ 0)) }
{
    if has_low_id(kind, octets) {
        return Err(at_start(MalformedKind::TemplateId));
    }
    if be16(octets, 2) == 0 {
        return Ok(TEMPLATE_HEADER);
    }
    if cuts_scope(kind, octets) {
        return Err(at_start(MalformedKind::FieldCut));
    }
    if has_wrong_scope(kind, octets) {
        return Err(at_start(MalformedKind::ScopeCount));
    }
    definition(kind, octets)
}

impl Items for TemplatesInSet {
    ghost is = { λ r. IsTemplateRecord r.kind };

    ghost ends = { λ _. IsPadding };

    ghost breaks = { λ r. BreaksTemplateRecord r.kind };

    fn at_end(&self, octets: &[u8]) -> bool {
        is_padding(octets)
    }

    fn first(&self, octets: &[u8]) -> Result<usize, Malformed> {
        template_record(self.kind, octets)
    }
}
