// Goes over the template records of a set.
ghost use Rattle.std.specs.Prelude.{◌≡◌, ◌≤◌, ◌<◌, ◌+◌, ◌++◌, ◌^◌, [], false, if◌then◌else◌, length, drop};
ghost use Rattle.std.specs.Iterator.{at_most};
ghost use Rattle.col_base.specs.Numbers.{be16_at};
ghost use Rattle.wire_spec.specs.Message.{IsTemplateRecord, is_padding, front, defines, has_scope};
ghost use Rattle.ipfix_reader.specs.Walk.{AreSomeTemplates, GivesTemplate};

use crate::raw::RawTemplate;
use crate::template_rules::{front, is_padding, template_record};
use col_base::{Kind, be16};
use wire_spec::numbers::TEMPLATE_HEADER;

/// Goes over the template records of a set, in order, up to its padding. It has what is left of the body.
#[derive(Drop)]
pub struct TemplateRecords<'a> {
    kind: Kind,
    rest: &'a [u8],
    ghost short: { length rest.now ≤ 65515 },
    ghost whole: { ∥ AreSomeTemplates kind rest.now ∥₁ },
}

impl<'a> TemplateRecords<'a> {
    /// Over octets that are template records of a kind and padding.
    pub(crate) fn new(kind: Kind, octets: &'a [u8]) -> Self
        requires short { length octets.now ≤ 65515 }
        requires whole { ∥ AreSomeTemplates kind octets.now ∥₁ }
        ensures kind { result.kind ≡ kind }
        ensures rest { result.rest.now ≡ octets.now }
    {
        TemplateRecords { kind, rest: octets }
    }
}

/// The first template record, and what follows it.
fn split_template(kind: Kind, octets: &[u8]) -> (&[u8], &[u8])
    requires short { length octets.now < 2 ^ 16 }
    requires some { is_padding octets.now ≡ false }
    requires whole { ∥ AreSomeTemplates kind octets.now ∥₁ }
    ensures joined { octets.now ≡ result.0.now ++ result.1.now }
    ensures length { length octets.now ≡ length result.0.now + length result.1.now }
    ensures first { IsTemplateRecord kind result.0.now }
    ensures rest { ∥ AreSomeTemplates kind result.1.now ∥₁ }
{
    match template_record(kind, octets) {
        Ok(size) => octets.split_at(size),
        Err(_) => (octets, octets),
    }
}

/// The scope count, 0 where there is none.
fn scope_of(kind: Kind, octets: &[u8]) -> u16
    requires { IsTemplateRecord kind octets.now }
    ensures { result ≡ (if has_scope kind octets.now then be16_at 4 octets.now else 0) }
{
    match kind {
        Kind::Template => 0,
        Kind::Options => {
            if be16(octets, 2) == 0 {
                return 0;
            }
            be16(octets, 4)
        }
    }
}

/// The specifiers, none for a withdrawal.
fn specifiers_of(kind: Kind, octets: &[u8]) -> &[u8]
    requires { IsTemplateRecord kind octets.now }
    ensures { result.now ≡ (if defines octets.now then drop (front kind) octets.now else []) }
{
    if be16(octets, 2) == 0 {
        return &octets[TEMPLATE_HEADER..];
    }
    &octets[front(kind)..]
}

impl<'a> Iterator for TemplateRecords<'a> {
    ghost use Rattle.ipfix_reader.specs.Left.{templates_left, kind_left};

    type Item = RawTemplate<'a>;

    ghost next_gives = { λ s r t. GivesTemplate (kind_left s) (templates_left s) r (templates_left t) × (kind_left t ≡ kind_left s) };

    ghost remaining = { λ s. at_most (length (templates_left s)) };

    fn next(&mut self) -> Option<RawTemplate<'a>> {
        if is_padding(self.rest) {
            return None;
        }
        let kind = self.kind;
        let (first, after) = split_template(kind, self.rest);
        self.rest = after;
        Some(RawTemplate {
            kind,
            id: be16(first, 0),
            scope: scope_of(kind, first),
            count: be16(first, 2),
            specs: specifiers_of(kind, first),
        })
    }
}
