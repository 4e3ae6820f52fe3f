// How many records sets have.
ghost use Rattle.std.specs.Prelude.{◌≡◌, ◌≤◌, ◌<◌, ◌+◌, ◌++◌, ◌∷◌, [], List, ℕ, IfOk, OnOk, length};
ghost use Rattle.wire_spec.specs.Record.{IsRecords, shortest};
ghost use Rattle.file_output.specs.FileSets.{file_sets_size};
ghost use Rattle.file_output.specs.Counted.{AreCounted};
ghost use Rattle.file_output.specs.declared.file_set.FileSet.{FileSet};

use crate::file_set::{CountedSet, FileSet};
use crate::records::SetRecords;
use col_base::Octets;
use record_iter::records;
use std::alloc::{AllocError, Global};
use std::sync::Arc;
use template_def::Definition;

/// How many records the octets of a set are.
fn count_records(definition: &Definition, octets: &[u8]) -> u32
    requires { length octets.now ≤ 65535 }
    ensures records { (list : List (List ℕ)) → IsRecords definition.now.fields octets.now list → result ≡ length list }
    ensures some { 0 < shortest definition.now.fields }
{
    if octets.len() < definition.min_len() as usize {
        return 0;
    }
    let Ok(walk) = records(definition, octets) else {
        return 0;
    };
    let mut count = 0;
    for _record in walk {
        count += 1;
    }
    count
}

/// Counts the records of one set more.
fn push_counted<'a>(set: &'a FileSet, counted: &mut Vec<CountedSet<'a>>) -> Result<(), AllocError>
    requires { length set.now.octets ≤ 65535 }
    ensures { OnOk result ((sets : List FileSet) → AreCounted sets counted.old.items → AreCounted (sets ++ set.now ∷ []) counted.new.items) }
{
    counted.push(CountedSet {
        definition: &set.def,
        octets: set.octets.as_slice(),
        records: count_records(&set.def, set.octets.as_slice()),
    })?;
    Ok(())
}

/// Counts the records of sets.
pub fn count_sets(alloc: Global, sets: &[FileSet]) -> Result<Vec<CountedSet<'_>>, AllocError>
    requires { 16 + file_sets_size sets.now ≤ 65535 }
    ensures { IfOk result (λ counted. AreCounted sets.now counted.items) }
{
    let mut counted = Vec::with_capacity(alloc, sets.len())?;
    for set in sets {
        push_counted(set, &mut counted)?;
    }
    Ok(counted)
}

impl SetRecords for CountedSet<'_> {
    ghost use Rattle.file_output.specs.Counted.{counted_body};

    ghost body = { counted_body };

    fn definition(&self) -> &Arc<Definition> {
        self.definition
    }

    fn size(&self) -> usize {
        self.octets.len()
    }

    fn count(&self) -> u32 {
        self.records
    }

    fn put(&self, out: &mut Octets) -> Result<(), AllocError> {
        out.extend(self.octets)
    }
}
