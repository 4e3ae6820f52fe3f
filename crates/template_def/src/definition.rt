// A definition.
ghost use Rattle.std.specs.Prelude.{◌≡◌, ◌≤◌, ◌<◌, ◌+◌, ◌++◌, ℕ, IfOk, OnOk, OnErr, length};
ghost use Rattle.wire_spec.specs.Message.{front, specifiers_size};
ghost use Rattle.wire_spec.specs.Record.{shortest};
ghost use Rattle.wire_spec.specs.Size.{are_fixed};
ghost use Rattle.wire_spec.specs.WellFormed.{HasScope, IsWellFormed};
ghost use Rattle.wire_spec.specs.Specifiers.{AreWellFormed, IsReadBack, defined_by, specifiers};
ghost use Rattle.template_def.specs.Kept.{IsKept, AppendsFront};

use crate::fields::{are_fixed, put_fields, read_fields, shortest, written_len};
use col_base::{Kind, Octets, WantOfMemory};
use std::alloc::Global;
use std::marker::Model;
use wire_spec::FieldSpec;

/// What a template record defines. Contracts see its kind, its number of scope fields, and its fields.
#[derive(Drop)]
pub struct Definition {
    kind: Kind,
    scope: u16,
    fields: Vec<FieldSpec>,
    min_len: u32,
    specs_len: u32,
    is_fixed: bool,
}

impl Model for Definition {
    ghost use Rattle.wire_spec.specs.Content as content;
    ghost use Rattle.template_def.specs.Kept.{IsStored};

    ghost Value = { content.Definition };

    ghost view = { λ d. record { kind = d.kind; scope = d.scope; fields = d.fields.items } };

    ghost invariant = { λ d. IsStored (record { kind = d.kind; scope = d.scope; fields = d.fields.items }) d.min_len d.specs_len d.is_fixed };
}

impl Definition {
    /// The definition that field specifiers give. Template records of a message that was checked meet the conditions.
    pub fn read(
        alloc: Global,
        kind: Kind,
        scope: u16,
        specs: &[u8],
    ) -> Result<Definition, WantOfMemory>
        requires well_formed { AreWellFormed scope specs.now }
        requires short { front kind + length specs.now ≤ 65515 }
        ensures { IfOk result (λ definition. (count : ℕ) → specifiers_size count specs.now ≡ length specs.now
            → definition ≡ defined_by kind scope count specs.now) }
    {
        let fields = read_fields(alloc, specs)?;
        let min_len = shortest(&fields);
        let specs_len = written_len(&fields);
        let is_fixed = are_fixed(&fields);
        Ok(Definition {
            kind,
            scope,
            fields,
            min_len,
            specs_len,
            is_fixed,
        })
    }

    pub fn kind(&self) -> Kind
        ensures { result ≡ self.now.kind }
    {
        self.kind
    }

    /// How many of the fields, the first ones, are scope fields.
    pub fn scope(&self) -> u16
        ensures { result ≡ self.now.scope }
    {
        self.scope
    }

    pub fn fields(&self) -> &[FieldSpec]
        ensures are { result.now ≡ self.now.fields }
        ensures kept { IsKept self.now }
        ensures well_formed { HasScope self.now.kind self.now.scope → IsWellFormed self.now }
    {
        &self.fields
    }

    /// The octets of the shortest record. A field of length 65535 counts 1.
    pub fn min_len(&self) -> u32
        ensures is { result ≡ shortest self.now.fields }
        ensures some { 0 < result }
    {
        self.min_len
    }

    /// Whether no field varies in length, so that all records have `min_len` octets.
    pub fn is_fixed(&self) -> bool
        ensures { result ≡ are_fixed self.now.fields }
    {
        self.is_fixed
    }

    /// The octets of the specifiers that `put_specs` appends.
    pub fn specs_len(&self) -> u32
        ensures is { result ≡ length (specifiers self.now.fields) }
        ensures short { front self.now.kind + result ≤ 65515 }
    {
        self.specs_len
    }

    /// Appends the specifier of each field, with the enterprise bit and number where that number isn't 0. Where memory
    /// is wanted a front of them is appended. What is appended reads back as the same definition.
    pub fn put_specs(&self, out: &mut Octets) -> Result<(), WantOfMemory>
        ensures ok { OnOk result (out.new ≡ out.old ++ specifiers self.now.fields) }
        ensures err { OnErr result (AppendsFront out.old out.new (specifiers self.now.fields)) }
        ensures back { IsReadBack self.now }
    {
        put_fields(&self.fields, out)?;
        Ok(())
    }
}
