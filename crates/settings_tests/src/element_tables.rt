// What no contract says: that the calls succeed, and that the definition's faults are the ones meant.
use element_table::{ElementType, Elements, TableFault};
use std::alloc::Global;
use std::process::Abort;
use std::test::Fail;

/// A fault without its place.
#[derive(Clone, Copy)]
enum Wrong {
    Row,
    Type,
    Pair,
    Name,
}

fn fault_at(wrong: Wrong, place: usize) -> TableFault {
    match wrong {
        Wrong::Row => TableFault::BadRow(place),
        Wrong::Type => TableFault::BadType(place),
        Wrong::Pair => TableFault::Duplicate(0, 1),
        Wrong::Name => TableFault::DuplicateName(place),
    }
}

const MISSING: &str = r#"{ pen = 8, id = 8, prefix = "p", name = "n" }"#;

const BAD_TYPE: &str = r#"{ pen = 8, id = 8, prefix = "p", name = "n", type = "unsigned128" }"#;

const KNOWN_PAIR: &str = r#"{ pen = 0, id = 1, prefix = "p", name = "n", type = "string" }"#;

const KNOWN_NAME: &str =
    r#"{ pen = 8, id = 8, prefix = "iana", name = "flowId", type = "string" }"#;

const GOOD: [&str; 3] = [
    r#"{ pen = 9, id = 7, prefix = "cisco", name = "thing", type = "unsigned16" }"#,
    r#"{ pen = 4294967295, id = 32767, prefix = "en", name = "thing", type = "subTemplateMultiList" }"#,
    r#"{ pen = 0, id = 0, prefix = "iana", name = "n-_9", type = "float64" }"#,
];

/// Rows that break a rule each.
const BAD: [(&str, Wrong); 20] = [
    (MISSING, Wrong::Row),
    (
        r#"{ id = 8, prefix = "p", name = "n", type = "string" }"#,
        Wrong::Row,
    ),
    (
        r#"{ pen = 8, prefix = "p", name = "n", type = "string" }"#,
        Wrong::Row,
    ),
    (
        r#"{ pen = 8, id = 8, name = "n", type = "string" }"#,
        Wrong::Row,
    ),
    (
        r#"{ pen = 8, id = 8, prefix = "p", type = "string" }"#,
        Wrong::Row,
    ),
    (
        r#"{ pen = 8, id = 8, prefix = "p", name = "n", type = "string", size = 4 }"#,
        Wrong::Row,
    ),
    (
        r#"{ pen = "8", id = 8, prefix = "p", name = "n", type = "string" }"#,
        Wrong::Row,
    ),
    (
        r#"{ pen = -1, id = 8, prefix = "p", name = "n", type = "string" }"#,
        Wrong::Row,
    ),
    (
        r#"{ pen = 4294967296, id = 8, prefix = "p", name = "n", type = "string" }"#,
        Wrong::Row,
    ),
    (
        r#"{ pen = 8, id = 32768, prefix = "p", name = "n", type = "string" }"#,
        Wrong::Row,
    ),
    (
        r#"{ pen = 8, id = 8.0, prefix = "p", name = "n", type = "string" }"#,
        Wrong::Row,
    ),
    (
        r#"{ pen = 8, id = 8, prefix = "en9", name = "n", type = "string" }"#,
        Wrong::Row,
    ),
    (
        r#"{ pen = 8, id = 8, prefix = "", name = "n", type = "string" }"#,
        Wrong::Row,
    ),
    (
        r#"{ pen = 8, id = 8, prefix = "p:", name = "n", type = "string" }"#,
        Wrong::Row,
    ),
    (
        r#"{ pen = 8, id = 8, prefix = "p", name = "é", type = "string" }"#,
        Wrong::Row,
    ),
    (
        r#"{ pen = 8, id = 8, prefix = "p", name = "n", type = 4 }"#,
        Wrong::Row,
    ),
    (BAD_TYPE, Wrong::Type),
    (
        r#"{ pen = 8, id = 8, prefix = "p", name = "n", type = "Str" }"#,
        Wrong::Type,
    ),
    (KNOWN_PAIR, Wrong::Pair),
    (KNOWN_NAME, Wrong::Name),
];

/// What the built-in elements say to a text.
fn outcome(alloc: Global, text: &[u8]) -> Result<(), TableFault> {
    match Elements::builtin(alloc) {
        Ok(mut elements) => elements.add_table(alloc, text),
        Err(_) => Err(TableFault::NoMemory),
    }
}

fn expect_outcome(rt: &impl Abort, alloc: Global, text: &str, want: Result<(), TableFault>) {
    assert_eq!(rt; outcome(alloc, text.as_bytes()), want, "{text}");
}

/// Whether a pair has an element of this type with this printed name.
fn is_known(elements: &Elements, pair: (u32, u16), kind: ElementType, name: &str) -> bool {
    match elements.find(pair.0, pair.1) {
        Some(element) => element.kind == kind && is_printed(elements, pair, name),
        None => false,
    }
}

fn is_printed(elements: &Elements, pair: (u32, u16), name: &str) -> bool {
    elements.printed(pair.0, pair.1) == Some(name)
}

fn is_unknown(elements: &Elements, pair: (u32, u16)) -> bool {
    elements.find(pair.0, pair.1).is_none() && elements.printed(pair.0, pair.1).is_none()
}

/// A document of these rows.
fn document(alloc: Global, rows: &[&str]) -> Result<String, Fail> {
    let mut text = String::from_str(alloc, "element = [")?;
    for row in rows {
        text.push_str(row)?;
        text.push_str(", ")?;
    }
    text.push_str("]")?;
    Ok(text)
}

fn expect_fault(
    rt: &impl Abort,
    alloc: Global,
    rows: &[&str],
    want: TableFault,
) -> Result<(), Fail> {
    let text = document(alloc, rows)?;
    expect_outcome(rt, alloc, text.as_str(), Err(want));
    Ok(())
}

#[test]
fn the_built_in_elements_are_there(rt: HostRuntime) -> Result<(), Fail> {
    let elements = Elements::builtin(rt.alloc())?;
    for (id, kind, name) in [
        (1, ElementType::Unsigned64, "iana:octetDeltaCount"),
        (8, ElementType::Ipv4Address, "iana:sourceIPv4Address"),
        (82, ElementType::Str, "iana:interfaceName"),
        (
            157,
            ElementType::DateTimeNanoseconds,
            "iana:flowEndNanoseconds",
        ),
        (210, ElementType::OctetArray, "iana:paddingOctets"),
    ] {
        assert!(rt; is_known(&elements, (0, id), kind, name), "{name}");
        assert!(rt; is_unknown(&elements, (9, id)), "{name}");
    }
    for id in [0, 19] {
        assert!(rt; is_unknown(&elements, (0, id)), "{id}");
    }
    Ok(())
}

#[test]
fn a_table_adds_its_rows(rt: HostRuntime) -> Result<(), Fail> {
    let alloc = rt.alloc();
    let mut elements = Elements::builtin(alloc)?;
    let text = document(alloc, &GOOD)?;
    assert!(rt; elements.add_table(alloc, text.as_bytes()).is_ok());
    for (pair, name) in [
        ((9, 7), "cisco:thing"),
        ((4294967295, 32767), "en:thing"),
        ((0, 0), "iana:n-_9"),
        ((0, 1), "iana:octetDeltaCount"),
    ] {
        assert!(rt; is_printed(&elements, pair, name), "{name}");
    }
    assert_eq!(rt;
        elements.add_table(alloc, text.as_bytes()),
        Err(TableFault::Duplicate(9, 7))
    );
    Ok(())
}

#[test]
fn a_fault_is_told_wherever_it_stands(rt: HostRuntime) -> Result<(), Fail> {
    let alloc = rt.alloc();
    for (row, wrong) in &BAD {
        for place in 0..3 {
            let mut rows = GOOD;
            rows[place] = *row;
            expect_fault(&rt, alloc, &rows, fault_at(*wrong, place))?;
        }
    }
    Ok(())
}

#[test]
fn the_first_of_two_faulty_rows_is_told(rt: HostRuntime) -> Result<(), Fail> {
    let alloc = rt.alloc();
    let rows = [
        (MISSING, Wrong::Row),
        (BAD_TYPE, Wrong::Type),
        (KNOWN_PAIR, Wrong::Pair),
        (KNOWN_NAME, Wrong::Name),
    ];
    for (first, wrong) in rows {
        for (second, _) in rows {
            expect_fault(&rt, alloc, &[first, second], fault_at(wrong, 0))?;
        }
    }
    Ok(())
}

#[test]
fn of_two_faults_of_a_row_the_earlier_rule_is_told(rt: HostRuntime) -> Result<(), Fail> {
    let alloc = rt.alloc();
    let no_id_bad_type = r#"{ pen = 8, prefix = "p", name = "n", type = "unsigned128" }"#;
    expect_fault(&rt, alloc, &[no_id_bad_type], TableFault::BadRow(0))?;
    let bad_type_known_pair = r#"{ pen = 0, id = 1, prefix = "p", name = "n", type = "u8" }"#;
    expect_fault(&rt, alloc, &[bad_type_known_pair], TableFault::BadType(0))?;
    let known_pair_known_name =
        r#"{ pen = 0, id = 1, prefix = "iana", name = "flowId", type = "string" }"#;
    expect_fault(
        &rt,
        alloc,
        &[known_pair_known_name],
        TableFault::Duplicate(0, 1),
    )?;
    Ok(())
}

#[test]
fn rows_of_one_text_know_each_other(rt: HostRuntime) -> Result<(), Fail> {
    let alloc = rt.alloc();
    let [a, b, c] = GOOD;
    expect_fault(&rt, alloc, &[a, b, c, a], TableFault::Duplicate(9, 7))?;
    let other_pair = r#"{ pen = 9, id = 8, prefix = "cisco", name = "thing", type = "string" }"#;
    expect_fault(
        &rt,
        alloc,
        &[b, a, other_pair],
        TableFault::DuplicateName(2),
    )?;
    Ok(())
}

#[test]
fn a_refused_table_changes_nothing(rt: HostRuntime) -> Result<(), Fail> {
    let alloc = rt.alloc();
    let mut elements = Elements::builtin(alloc)?;
    let [a, b, _] = GOOD;
    let text = document(alloc, &[a, b, BAD_TYPE])?;
    assert_eq!(rt;
        elements.add_table(alloc, text.as_bytes()),
        Err(TableFault::BadType(2))
    );
    assert!(rt; elements.find(9, 7).is_none());
    let text = document(alloc, &[a, b])?;
    assert_eq!(rt; elements.add_table(alloc, text.as_bytes()), Ok(()));
    Ok(())
}

#[test]
fn documents_of_another_form_have_a_fault(rt: HostRuntime) {
    let alloc = rt.alloc();
    for text in ["", "# nothing\n", "element = []", "\u{feff}"] {
        expect_outcome(&rt, alloc, text, Ok(()));
    }
    for text in [
        "elements = []",
        "element = 5",
        "element = [1]",
        r#"element = [{ id = 8 }, 8]"#,
        "[element]",
        "a = 1\nelement = []",
    ] {
        expect_outcome(&rt, alloc, text, Err(TableFault::BadRow(0)));
    }
    let past_64_bits =
        r#"element = [{ pen = 9223372036854775808, id = 8, prefix = "p", name = "n", type = "string" }]"#;
    for text in ["element", "a = 1\na = 2", past_64_bits] {
        expect_outcome(&rt, alloc, text, Err(TableFault::NotToml));
    }
    assert_eq!(rt; outcome(alloc, b"# \xff"), Err(TableFault::NotToml));
}

/// A row whose prefix and name are `a` so many times.
fn row_of_lengths(alloc: Global, prefix: usize, name: usize) -> Result<String, Fail> {
    let prefix = "a".repeat(alloc, prefix)?;
    let name = "a".repeat(alloc, name)?;
    Ok(format!(in alloc;
        r#"{{ pen = 9, id = 7, prefix = "{prefix}", name = "{name}", type = "string" }}"#
    )?)
}

#[test]
fn names_have_1_to_64_octets(rt: HostRuntime) -> Result<(), Fail> {
    let alloc = rt.alloc();
    for (prefix, name) in [(1, 64), (64, 1)] {
        let text = document(alloc, &[row_of_lengths(alloc, prefix, name)?.as_str()])?;
        expect_outcome(&rt, alloc, text.as_str(), Ok(()));
    }
    for (prefix, name) in [(0, 1), (1, 0), (65, 1), (1, 65)] {
        let text = document(alloc, &[row_of_lengths(alloc, prefix, name)?.as_str()])?;
        expect_outcome(&rt, alloc, text.as_str(), Err(TableFault::BadRow(0)));
    }
    Ok(())
}

/// A document of so many rows.
fn long_document(alloc: Global, count: u32) -> Result<String, Fail> {
    let mut text = String::from_str(alloc, "element = [\n")?;
    for i in 0..count {
        let pen = 1 + i / 32768;
        let id = i % 32768;
        text.push_str(format!(in alloc;
            r#"{{ pen = {pen}, id = {id}, prefix = "p{pen}", name = "n{id}", type = "string" }},"#
        )?.as_str())?;
    }
    text.push_str("]")?;
    Ok(text)
}

#[test]
fn a_text_has_at_most_65536_rows(rt: HostRuntime) -> Result<(), Fail> {
    let alloc = rt.alloc();
    let text = long_document(alloc, 65536)?;
    let mut elements = Elements::builtin(alloc)?;
    assert!(rt; elements.add_table(alloc, text.as_bytes()).is_ok());
    assert!(rt; is_printed(&elements, (2, 32767), "p2:n32767"));
    let text = long_document(alloc, 65537)?;
    assert_eq!(rt; outcome(alloc, text.as_bytes()), Err(TableFault::BadRow(0)));
    Ok(())
}
