// The lines that are made of a case.
use crate::case::Case;
use col_base::{Kind, Octets};
use element_table::Elements;
use json_output::{Lines, Prepared, put_record, put_records};
use record_iter::records;
use std::alloc::{AllocError, Global};
use template_def::{Definition, well_formed};

/// The most octets of the specifiers of a template record.
const MOST: usize = 65500;

/// The definition of a case, None where its fields are none.
fn definition_of(alloc: Global, case: &Case<'_>) -> Result<Option<Definition>, AllocError> {
    let Some(specifiers) = case.specifiers(alloc) else {
        return Ok(None);
    };
    let scope = match case.kind {
        Kind::Template => 0,
        Kind::Options => 1,
    };
    if specifiers.len() > MOST || !well_formed(scope, &specifiers) {
        return Ok(None);
    }
    let made = Definition::read(alloc, case.kind, scope, &specifiers).map_err(|_| AllocError)?;
    Ok(Some(made))
}

/// The lines of a body, each made for itself.
fn lines_alone(
    alloc: Global,
    elements: &Elements,
    def: &Definition,
    case: &Case<'_>,
) -> Result<Octets, AllocError> {
    let mut lines = Octets::new(alloc);
    let Ok(walk) = records(def, &case.body) else {
        return Ok(lines);
    };
    for rec in walk {
        put_record(alloc, case.options, elements, def, rec, &mut lines).map_err(|_| AllocError)?;
    }
    Ok(lines)
}

/// The lines of a case's body, made at once, behind others that are let go. None where the case has no definition, or the
/// records come out otherwise one by one.
pub fn lines_of(
    alloc: Global,
    elements: &Elements,
    case: &Case<'_>,
) -> Result<Option<Octets>, AllocError> {
    let Some(def) = definition_of(alloc, case)? else {
        return Ok(None);
    };
    let prepared = Prepared::new(alloc, case.options, elements, &def)?;
    let mut lines = Lines::new(alloc);
    put_records(&def, &prepared, &case.body, &mut lines)?;
    lines.clear();
    put_records(&def, &prepared, &case.body, &mut lines)?;
    let alone = lines_alone(alloc, elements, &def, case)?;
    if alone.as_slice() != lines.as_slice() {
        return Ok(None);
    }
    Ok(Some(alone))
}
