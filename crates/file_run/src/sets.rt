// The sets of a message.
ghost use Rattle.std.specs.Prelude.{◌≡◌, ◌≤◌, ◌+◌, true, IfOk, IfSome};
ghost use Rattle.std.specs.List.{AllByRecursion};
ghost use Rattle.file_output.specs.FileSets.{HasRecords, file_sets_size};

use crate::one_record::is_one_record;
use col_base::{Kind, Octets};
use file_output::{FileSet, FileSets};
use std::alloc::{AllocError, Global};
use std::sync::Arc;
use template_def::{Definition, well_formed};
use wire_spec::numbers::{MESSAGE_HEADER, SET_HEADER};

/// The most octets of a message (RFC 7011, section 3.1).
const MOST: usize = 65535;

/// The definition of so many scope fields and of field specifiers in hexadecimal: a template's where there are none.
fn read_definition(
    alloc: Global,
    scope: &str,
    fields: &str,
) -> Result<Option<Definition>, AllocError> {
    let (Ok(scope), Ok(specifiers)) = (scope.parse::<u16>(), hex::decode(alloc, fields)) else {
        return Ok(None);
    };
    if specifiers.len() > 65000 || !well_formed(scope, &specifiers) {
        return Ok(None);
    }
    let kind = if scope == 0 {
        Kind::Template
    } else {
        Kind::Options
    };
    match Definition::read(alloc, kind, scope, &specifiers) {
        Ok(definition) => Ok(Some(definition)),
        Err(_) => Err(AllocError),
    }
}

/// The set of a definition and of its records in hexadecimal, at least one.
fn join_records(
    alloc: Global,
    def: Arc<Definition>,
    words: &str,
) -> Result<Option<FileSet>, AllocError>
    ensures { IfOk result (λ o. IfSome o HasRecords) }
{
    let mut octets = Octets::new(alloc);
    for word in words.split(',') {
        let Ok(record) = hex::decode(alloc, word) else {
            return Ok(None);
        };
        if !is_one_record(&def, &record) {
            return Ok(None);
        }
        octets.extend(&record)?;
    }
    if octets.is_empty() {
        return Ok(None);
    }
    Ok(Some(FileSet { def, octets }))
}

/// The set of a word `SCOPES/SPECIFIERS/RECORD,RECORD..`.
fn read_set(alloc: Global, word: &str) -> Result<Option<FileSet>, AllocError>
    ensures { IfOk result (λ o. IfSome o HasRecords) }
{
    let Some((scope, rest)) = word.split_once('/') else {
        return Ok(None);
    };
    let Some((fields, records)) = rest.split_once('/') else {
        return Ok(None);
    };
    match read_definition(alloc, scope, fields)? {
        Some(def) => join_records(alloc, Arc::new(alloc, def)?, records),
        None => Ok(None),
    }
}

/// The sets of words.
pub fn read_sets(alloc: Global, words: &str) -> Result<Option<FileSets>, AllocError>
    ensures { IfOk result (λ o. IfSome o (λ sets. AllByRecursion HasRecords sets.items)) }
{
    let mut sets = Vec::new(alloc);
    for word in words.split(' ') {
        let Some(set) = read_set(alloc, word)? else {
            return Ok(None);
        };
        sets.push(set)?;
    }
    Ok(Some(sets))
}

/// Whether a message has room for sets.
pub fn have_room(sets: &[FileSet]) -> bool
    ensures { result ≡ true → 16 + file_sets_size sets.now ≤ 65535 }
{
    let mut size = MESSAGE_HEADER;
    for set in sets {
        let wanted = set.octets.len().saturating_add(SET_HEADER);
        if wanted > MOST - size {
            return false;
        }
        size += wanted;
    }
    true
}
