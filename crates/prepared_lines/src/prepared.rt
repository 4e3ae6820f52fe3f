// A prepared line.
ghost use Rattle.std.specs.Prelude.{◌≡◌, IfOk, OnOk, OnErr};
ghost use Rattle.wire_spec.specs.Record.{IsSomeRecord};
ghost use Rattle.prepared_lines.specs.Line.{PutsLine};

use crate::lines::Lines;
use crate::member::Member;
use crate::way::Way;
use col_base::Octets;
use std::alloc::AllocError;
use std::marker::Model;
use wire_spec::FieldSpec;

/// What is put of each record of a definition, made by `Draft::finish`. Contracts see the fields of the records, the members
/// of their line, and what ends it.
#[derive(Drop)]
pub struct PreparedLine {
    pub(crate) fields: Vec<FieldSpec>,
    pub(crate) members: Vec<Member>,
    pub(crate) end: Octets,
    pub(crate) way: Way,
}

impl Model for PreparedLine {
    ghost use Rattle.std.specs.Prelude.{◌≡◌, true, length};
    ghost use Rattle.std.specs.List.{list_all};
    ghost use Rattle.prepared_lines.specs.Line.{Line, is_within};
    ghost use Rattle.prepared_lines.specs.Way.{IsWay};

    ghost Value = { Line };

    ghost view = { λ l. record { fields = l.fields.items; members = l.members.items; end = l.end } };

    ghost invariant = { λ l. (list_all (is_within (length l.fields.items)) l.members.items ≡ true) × IsWay l.fields.items l.members.items l.end l.way };
}

impl PreparedLine {
    /// Puts the line of a record. Where memory is refused the text stays as it was.
    #[inline(always)]
    pub fn put_record(&self, rec: &[u8], lines: &mut Lines) -> Result<(), AllocError>
        requires { IsSomeRecord self.now.fields rec.now }
        ensures ok { OnOk result (PutsLine self.now rec.now lines.old lines.new) }
        ensures err { OnErr result (lines.new ≡ lines.old) }
    {
        match &self.way {
            Way::Hot(line) => lines.put_hot(line, rec),
            Way::Placed(line) => { lines.put_placed(&self.members, self.end.as_slice(), line, rec) }
            Way::Walked => {
                lines.put_walked(&self.fields, &self.members, self.end.as_slice(), rec)
            }
        }
    }
}
