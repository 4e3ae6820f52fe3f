// Tests, and a caller that writes a definition and reads it again.
ghost use Rattle.std.specs.Prelude.{◌≡◌, IfOk};

use col_base::{Kind, Octets, WantOfMemory};
use sample_messages::{FLOW_SPECIFIERS, NAME_SPECIFIERS, REPEATED_SPECIFIERS};
use std::alloc::Global;
use std::test::Fail;
use template_def::{Definition, FieldSpec, well_formed};

/// The definition that is read from what is written of one.
fn read_again(alloc: Global, definition: &Definition) -> Result<Definition, WantOfMemory>
    ensures { IfOk result (λ again. again ≡ definition.now) }
{
    let mut out = Octets::new(alloc);
    definition.put_specs(&mut out)?;
    let _ = definition.fields();
    Definition::read(alloc, definition.kind(), definition.scope(), out.as_slice())
}

/// The definition of specifiers, if they are well formed.
fn definition_of(alloc: Global, kind: Kind, scope: u16, specs: &[u8]) -> Option<Definition> {
    if specs.len() > 65509 || !well_formed(scope, specs) {
        return None;
    }
    Definition::read(alloc, kind, scope, specs).ok()
}

/// A field whose specifier has the enterprise bit and the number 0, and the same field without both.
const MARKED_ZERO: [u8; 8] = [0x80, 7, 0, 2, 0, 0, 0, 0];

const UNMARKED: [u8; 4] = [0, 7, 0, 2];

#[test]
fn specifiers_are_judged(rt: HostRuntime) {
    let table: [(u16, &[u8], bool); 13] = [
        (0, &[], false),
        (0, FLOW_SPECIFIERS, true),
        (3, FLOW_SPECIFIERS, true),
        (4, FLOW_SPECIFIERS, false),
        (0, &FLOW_SPECIFIERS[..11], false),
        (0, &FLOW_SPECIFIERS[..3], false),
        (0, REPEATED_SPECIFIERS, true),
        (4, REPEATED_SPECIFIERS, false),
        (0, &REPEATED_SPECIFIERS[..8], false),
        (1, NAME_SPECIFIERS, true),
        (0, &[0, 1, 0, 0], false),
        (0, &[0, 1, 0, 0, 0, 2, 0, 0], false),
        (0, &[0, 1, 0, 0, 0, 2, 0, 1], true),
    ];
    for (scope, specs, want) in table {
        assert_eq!(rt; well_formed(scope, specs), want);
    }
}

/// What the calls answer on a definition.
fn answers(definition: &Definition) -> (Kind, u16, u32, u32, bool) {
    (
        definition.kind(),
        definition.scope(),
        definition.min_len(),
        definition.specs_len(),
        definition.is_fixed(),
    )
}

#[test]
fn definitions_are_read(rt: HostRuntime) -> Result<(), Fail> {
    let around = definition_of(rt.alloc(), Kind::Template, 0, REPEATED_SPECIFIERS).ok_or(
        "no definition",
    )?;
    assert_eq!(rt; answers(&around), (Kind::Template, 0, 10, 16, true));
    let count = FieldSpec {
        pen: 0,
        id: 1,
        len: 4,
    };
    let other = FieldSpec {
        pen: 9,
        id: 7,
        len: 2,
    };
    assert_eq!(rt; around.fields(), [count, other, count].as_slice());

    let name = definition_of(rt.alloc(), Kind::Options, 1, NAME_SPECIFIERS).ok_or("no definition")?;
    assert_eq!(rt; answers(&name), (Kind::Options, 1, 1, 4, false));
    Ok(())
}

#[test]
fn definitions_are_written_and_read_again(rt: HostRuntime) -> Result<(), Fail> {
    let around = definition_of(rt.alloc(), Kind::Template, 0, REPEATED_SPECIFIERS).ok_or(
        "no definition",
    )?;
    let mut out = Octets::new(rt.alloc());
    assert!(rt; out.push(77).is_ok() && around.put_specs(&mut out).is_ok());
    assert_eq!(rt; out.as_slice().first(), Some(&77));
    assert_eq!(rt; &out.as_slice()[1..], REPEATED_SPECIFIERS);
    assert!(rt; read_again(rt.alloc(), &around).ok() == Some(around));
    Ok(())
}

#[test]
fn an_enterprise_number_of_zero_is_none(rt: HostRuntime) -> Result<(), Fail> {
    let marked = definition_of(rt.alloc(), Kind::Template, 0, &MARKED_ZERO).ok_or("no definition")?;
    assert_eq!(rt; answers(&marked), (Kind::Template, 0, 2, 4, true));
    let mut out = Octets::new(rt.alloc());
    assert!(rt; marked.put_specs(&mut out).is_ok());
    assert_eq!(rt; out.as_slice(), UNMARKED.as_slice());
    assert!(rt; Some(marked) == definition_of(rt.alloc(), Kind::Template, 0, &UNMARKED));
    Ok(())
}

#[test]
fn definitions_differ_by_kind_scope_and_fields(rt: HostRuntime) {
    let flow = definition_of(rt.alloc(), Kind::Options, 1, FLOW_SPECIFIERS);
    let table: [(Kind, u16, &[u8], bool); 5] = [
        (Kind::Options, 1, FLOW_SPECIFIERS, true),
        (Kind::Template, 1, FLOW_SPECIFIERS, false),
        (Kind::Options, 2, FLOW_SPECIFIERS, false),
        (Kind::Options, 1, REPEATED_SPECIFIERS, false),
        (Kind::Options, 1, &FLOW_SPECIFIERS[..8], false),
    ];
    for (kind, scope, specs, same) in table {
        assert_eq!(rt; flow == definition_of(rt.alloc(), kind, scope, specs), same);
    }
    assert!(rt; flow.is_some());
}
