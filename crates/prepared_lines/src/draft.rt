// A line that is put together.
ghost use Rattle.std.specs.Prelude.{◌≡◌, ◌<◌, [], IfOk, OnOk, OnErr, length};
ghost use Rattle.text_spec.specs.Value.{value_text};
ghost use Rattle.prepared_lines.specs.Line.{value_at};
ghost use Rattle.prepared_lines.specs.Grows.{GrowsBy};

use crate::choose::way_of;
use crate::member::Member;
use crate::piece::Piece;
use crate::prepared::PreparedLine;
use col_base::Octets;
use std::alloc::{AllocError, Global};
use std::marker::Model;
use text_spec::ElementType;
use wire_spec::FieldSpec;

/// A line for the records of a definition, as far as it is put together. Contracts see its fields, its members, and the
/// octets behind the last member. A call that is refused memory leaves it as it was.
#[derive(Drop)]
pub struct Draft {
    alloc: Global,
    fields: Vec<FieldSpec>,
    members: Vec<Member>,
    end: Octets,
}

impl Model for Draft {
    ghost use Rattle.std.specs.Prelude.{◌≡◌, true, length};
    ghost use Rattle.std.specs.List.{list_all};
    ghost use Rattle.prepared_lines.specs.Line.{Line, is_within};

    ghost Value = { Line };

    ghost view = { λ d. record { fields = d.fields.items; members = d.members.items; end = d.end } };

    ghost invariant = { λ d. list_all (is_within (length d.fields.items)) d.members.items ≡ true };
}

impl Draft {
    /// An empty line.
    pub fn new(alloc: Global, fields: &[FieldSpec]) -> Result<Draft, AllocError>
        ensures { IfOk result (λ made. made ≡ record { fields = fields.now; members = []; end = [] }) }
    {
        Ok(Draft {
            alloc,
            fields: fields.to_vec(alloc)?,
            members: Vec::new(alloc),
            end: Octets::new(alloc),
        })
    }

    /// Goes on with octets that are the same for each record.
    pub fn put_text(&mut self, text: &[u8]) -> Result<(), AllocError>
        ensures ok { OnOk result (GrowsBy self.old self.new (λ _. text.now)) }
        ensures err { OnErr result (self.new ≡ self.old) }
    {
        self.end.extend(text)
    }

    /// Goes on with the value of a field, by the field's number, written by a type.
    pub fn put_value(&mut self, field: usize, kind: Option<ElementType>) -> Result<(), AllocError>
        requires { field < length self.old.fields }
        ensures ok { OnOk result (GrowsBy self.old self.new (λ values. value_text kind (value_at values field))) }
        ensures err { OnErr result (self.new ≡ self.old) }
    {
        let literal = Piece::new(self.alloc, self.end.as_slice())?;
        self.members.push(Member {
            literal,
            kind,
            field,
        })?;
        self.end.clear();
        Ok(())
    }

    /// The line, as it is written from now on.
    pub fn finish(self) -> Result<PreparedLine, AllocError>
        ensures { IfOk result (λ made. made ≡ self) }
    {
        let Draft {
            alloc,
            fields,
            members,
            end,
        } = self;
        let way = way_of(alloc, &fields, &members, end.as_slice())?;
        Ok(PreparedLine {
            fields,
            members,
            end,
            way,
        })
    }
}
