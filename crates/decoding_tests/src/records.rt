// Tests, and a caller that walks over records and their fields.
ghost use Rattle.std.specs.Prelude.{◌≡◌, ◌++◌, List, IfOk, OnOk, MatchOption, flat_map};
ghost use Rattle.wire_spec.specs.Record.{IsRecord, IsSomeRecord, AreSomeRecords};
ghost use Rattle.decoding_tests.specs.Shown.{Placed, row_of, values_of, AreRowsOf};

use col_base::Kind;
use record_iter::{FieldValue, fields, records, value_place};
use sample_messages::{
    FLOW_RECORD, FLOW_SPECIFIERS, NAME_SPECIFIERS, NAMES_BODY, OPTIONS_RECORD, OPTIONS_SPECIFIERS,
    PADDED_FLOW_BODY, REPEATED_RECORD, REPEATED_SPECIFIERS, TWO_FLOWS_BODY,
};
use std::alloc::{AllocError, Global};
use std::test::Fail;
use template_def::{Definition, well_formed};

/// Adds the row of a value: its place, its length, and its octets.
fn push_value(field: FieldValue<'_>, rows: &mut Vec<usize>) -> Result<(), AllocError>
    ensures { OnOk result (rows.new.items ≡ rows.old.items ++ row_of (field.entry.at, field.entry.value.now)) }
{
    rows.push(field.at)?;
    rows.push(field.value.len())?;
    for octet in field.value {
        rows.push(usize::from(*octet))?;
    }
    Ok(())
}

/// Adds the rows of a record's values.
fn push_fields(def: &Definition, rec: &[u8], rows: &mut Vec<usize>) -> Result<(), AllocError>
    requires { IsSomeRecord def.now.fields rec.now }
    ensures { OnOk result ((placed : List Placed) × IsRecord def.now.fields rec.now (values_of placed) × (rows.new.items ≡ rows.old.items ++ flat_map row_of placed)) }
{
    for field in fields(def, rec) {
        push_value(field, rows)?;
    }
    Ok(())
}

/// The rows of all values of a body's records. None exactly where the body isn't records.
fn rows_of(alloc: Global, def: &Definition, body: &[u8]) -> Result<Option<Vec<usize>>, AllocError>
    ensures { IfOk result (λ found. MatchOption found (AreSomeRecords def.now.fields body.now → ⊥) (λ rows. AreRowsOf def.now.fields body.now rows.items)) }
{
    let Ok(walk) = records(def, body) else {
        return Ok(None);
    };
    let mut rows = Vec::new(alloc);
    for rec in walk {
        push_fields(def, rec, &mut rows)?;
    }
    Ok(Some(rows))
}

/// The definition of specifiers, if they are well formed.
fn definition_of(alloc: Global, kind: Kind, scope: u16, specs: &[u8]) -> Option<Definition> {
    if specs.len() > 65509 || !well_formed(scope, specs) {
        return None;
    }
    Definition::read(alloc, kind, scope, specs).ok()
}

#[test]
fn records_are_walked_over(rt: HostRuntime) -> Result<(), Fail> {
    let flow: [usize; 36] = [
        0, 4, 10, 0, 0, 1, 4, 4, 10, 0, 0, 2, 8, 4, 0, 0, 3, 232, 0, 4, 10, 0, 0, 1, 4, 4, 10, 0,
        0, 2, 8, 4, 0, 0, 3, 232,
    ];
    let table: [(Kind, u16, &[u8], &[u8], &[usize]); 6] = [
        (Kind::Template, 0, FLOW_SPECIFIERS, FLOW_RECORD, &flow[..18]),
        (
            Kind::Template,
            0,
            FLOW_SPECIFIERS,
            PADDED_FLOW_BODY,
            &flow[..18],
        ),
        (Kind::Template, 0, FLOW_SPECIFIERS, TWO_FLOWS_BODY, &flow),
        (
            Kind::Template,
            0,
            NAME_SPECIFIERS,
            NAMES_BODY,
            &[1, 3, 97, 98, 99, 3, 3, 97, 98, 99],
        ),
        (
            Kind::Template,
            0,
            REPEATED_SPECIFIERS,
            REPEATED_RECORD,
            &[0, 4, 0, 0, 0, 5, 4, 2, 0xab, 0xcd, 6, 4, 0, 0, 0, 6],
        ),
        (
            Kind::Options,
            1,
            OPTIONS_SPECIFIERS,
            OPTIONS_RECORD,
            &[0, 4, 0, 0, 0, 1, 4, 4, 0, 0, 0, 7],
        ),
    ];
    for (kind, scope, specs, body, want) in table {
        let def = definition_of(rt.alloc(), kind, scope, specs).ok_or("no definition")?;
        let rows = rows_of(rt.alloc(), &def, body).ok().ok_or("no memory")?;
        assert_eq!(rt; rows.as_deref(), Some(want));
    }
    Ok(())
}

#[test]
fn bodies_of_one_varying_field(rt: HostRuntime) -> Result<(), Fail> {
    let def = definition_of(rt.alloc(), Kind::Template, 0, NAME_SPECIFIERS).ok_or("no definition")?;
    let table: [(&[u8], Option<&[usize]>); 7] = [
        (&[255], None),
        (&[255, 0, 1], None),
        (&[5, 97], None),
        (&[3, 97, 98, 99, 5, 97], None),
        (&[], Some(&[])),
        (&[0, 0], Some(&[1, 0, 1, 0])),
        (&[255, 0, 0], Some(&[3, 0])),
    ];
    for (body, want) in table {
        let rows = rows_of(rt.alloc(), &def, body).ok().ok_or("no memory")?;
        assert_eq!(rt; rows.as_deref(), want);
    }
    Ok(())
}

#[test]
fn a_value_has_a_place(rt: HostRuntime) {
    let table: [(u16, &[u8], usize, (usize, usize)); 6] = [
        (4, FLOW_RECORD, 0, (0, 4)),
        (4, FLOW_RECORD, 8, (8, 4)),
        (0, FLOW_RECORD, 12, (12, 0)),
        (65535, NAMES_BODY, 0, (1, 3)),
        (65535, NAMES_BODY, 4, (7, 3)),
        (65535, &[0], 0, (1, 0)),
    ];
    for (len, octets, from, want) in table {
        let place = value_place(len, octets, from);
        assert_eq!(rt; (place.at, place.len), want);
    }
}

#[test]
fn a_value_is_written_over(rt: HostRuntime) -> Result<(), Fail> {
    let mut rec = NAMES_BODY.to_vec(rt.alloc())?;
    let place = value_place(65535, &rec, 4);
    for octet in &mut rec[place.at..place.at + place.len] {
        *octet = 0;
    }
    assert_eq!(rt;
        rec.as_slice(),
        [3, 97, 98, 99, 255, 0, 3, 0, 0, 0].as_slice()
    );
    Ok(())
}
