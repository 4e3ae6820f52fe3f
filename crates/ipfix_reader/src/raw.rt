// What stands in a message.
ghost use Rattle.std.specs.Prelude.{◌≡◌, ◌+◌, ◌<◌, ◌≤◌, ◌^◌, length};
ghost use Rattle.wire_spec.specs.Message.{IsBody, kind_of, set_id};
ghost use Rattle.wire_spec.specs.WellFormed.{HasScope};
ghost use Rattle.ipfix_reader.specs.Specifiers.{AreSpecifiers, scope_prop, scope_if_prop};

use crate::set_rules::kind_of;
use col_base::Kind;
use wire_spec::numbers::LEAST_TEMPLATE_ID;

/// A set as it stands in its message (RFC 7011, section 3.3): its ID, the octet of the message at which it
/// begins, and its octets behind the header of four.
#[derive(Clone, Copy)]
pub struct RawSet<'a> {
    pub id: u16,
    pub at: u32,
    pub body: &'a [u8],
    pub ghost inside: { (16 ≤ at) × (at + 4 + length body.now < 2 ^ 16) },
    pub ghost whole: { ∥ IsBody (kind_of id) body.now ∥₁ },
}

/// What a set has, which its ID says (RFC 7011, section 3.3.2).
#[derive(Clone, Copy)]
pub enum SetContent {
    /// Template records of a kind: the ID is 2 or 3.
    Templates(Kind),
    /// Data records of the template of this ID, from 256 on.
    Data(u16),
    /// Octets without a meaning: the ID is 0, 1, or from 4 to 255.
    Reserved,
}

impl RawSet<'_> {
    ghost use Rattle.ipfix_reader.specs.Cases.{HasContent};

    /// What the set has.
    #[tactic(auto, using(crate::proofs::WalkLemmas::kind_ids))]
    pub fn content(&self) -> SetContent
        ensures { HasContent self.now.id result }
    {
        if self.id >= LEAST_TEMPLATE_ID {
            return SetContent::Data(self.id);
        }
        match kind_of(self.id) {
            Some(kind) => SetContent::Templates(kind),
            None => SetContent::Reserved,
        }
    }
}

/// A template record as it stands in its set (RFC 7011, section 3.4), where `count` is 0 a withdrawal (section
/// 8.1).
#[derive(Clone, Copy, Debug, PartialEq, Eq)]
pub struct RawTemplate<'a> {
    pub kind: Kind,
    pub id: u16,
    /// How many of the fields are scope fields, 0 but for a definition of an options template.
    pub scope: u16,
    /// How many fields there are.
    pub count: u16,
    /// The octets of the field specifiers, none for a withdrawal.
    pub specs: &'a [u8],
    pub ghost definition: { (count ≡ 0 → ⊥) → AreSpecifiers kind scope count specs.now },
    pub ghost scoped: { (count ≡ 0 → ⊥) → HasScope kind scope } by { scope_if_prop kind scope count },
    pub ghost low: { id < 256 → (count ≡ 0) × (id ≡ set_id kind) },
}

/// A definition as it stands in its template record (RFC 7011, sections 3.4.1 and 3.4.2).
#[derive(Clone, Copy)]
pub struct RawDefinition<'a> {
    pub kind: Kind,
    /// The ID that it defines, from 256 on.
    pub id: u16,
    /// How many of the fields are scope fields: none of a template, at least one of an options template.
    pub scope: u16,
    /// How many fields there are, at least one.
    pub count: u16,
    /// The octets of the field specifiers.
    pub specs: &'a [u8],
    pub ghost least: { 256 ≤ id },
    pub ghost whole: { AreSpecifiers kind scope count specs.now },
    pub ghost scoped: { HasScope kind scope } by { scope_prop kind scope },
}

/// What a template record does to the templates of its domain (RFC 7011, sections 3.4 and 8.1).
#[derive(Clone, Copy)]
pub enum RawTouch<'a> {
    /// It defines an ID.
    Define(RawDefinition<'a>),
    /// It withdraws the definition of this ID.
    Withdraw(u16),
    /// It withdraws all definitions of a kind.
    WithdrawAll(Kind),
}

impl<'a> RawTemplate<'a> {
    ghost use Rattle.ipfix_reader.specs.Walk.{touch_by};
    ghost use Rattle.ipfix_reader.specs.Cases.{HasTouch, touch_said};

    /// What the record does.
    pub fn touch(&self) -> RawTouch<'a>
        ensures has { HasTouch self.now result }
        ensures says { touch_said result ≡ touch_by self.now }
    {
        if self.count != 0 {
            return RawTouch::Define(RawDefinition {
                kind: self.kind,
                id: self.id,
                scope: self.scope,
                count: self.count,
                specs: self.specs,
            });
        }
        if self.id < LEAST_TEMPLATE_ID {
            RawTouch::WithdrawAll(self.kind)
        } else {
            RawTouch::Withdraw(self.id)
        }
    }
}
