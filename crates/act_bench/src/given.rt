// What is worked on: descriptions, a definition, and records of it.
use col_base::Kind;
use std::alloc::{AllocError, Global};
use template_def::{Definition, well_formed};

/// What is worked.
#[derive(Clone, Copy)]
pub enum Task {
    /// 1,024 rules, of which the last two are on elements that the records have.
    Filter,
    /// 4,096 rows of eight lengths, and two listed addresses. What a row puts in place is its own prefix, so that the
    /// records stay as they are.
    Rows,
    /// No rows, and two listed addresses.
    Cut,
}

impl Task {
    pub fn name(self) -> &'static str {
        match self {
            Task::Filter => "filter",
            Task::Rows => "rows",
            Task::Cut => "cut",
        }
    }
}

/// Twelve fields: two addresses, two ports, the protocol, two counts, two interfaces, two times and the flags.
const FIELDS: [u8; 48] = [
    0, 8, 0, 4, 0, 12, 0, 4, 0, 7, 0, 2, 0, 11, 0, 2, 0, 4, 0, 1, 0, 1, 0, 8, 0, 2, 0, 8, 0, 10, 0,
    4, 0, 14, 0, 4, 0, 152, 0, 8, 0, 153, 0, 8, 0, 6, 0, 2,
];

/// The octets of a record.
pub const RECORD: usize = 55;

/// How many records there are.
const RECORDS: u32 = 1024;

const BEHIND: &str =
    "input = [{ kind = \"file\", name = \"in\", path = \"in\" }]\noutput = [{ kind = \"json\", name = \"out\", path = \"out\" }]\n";

/// The definition of these fields, if it is well formed.
pub fn definition(alloc: Global) -> Result<Option<Definition>, AllocError> {
    if !well_formed(0, &FIELDS) {
        return Ok(None);
    }
    let def = Definition::read(alloc, Kind::Template, 0, &FIELDS).map_err(|_| AllocError)?;
    Ok(Some(def))
}

/// A next number at random.
fn draw(state: u64) -> u64 {
    state
        .wrapping_mul(6364136223846793005)
        .wrapping_add(1442695040888963407)
}

/// Records with octets at random.
pub fn body(alloc: Global) -> Result<Vec<u8>, AllocError> {
    let mut octets = Vec::new(alloc);
    let mut state: u64 = 1;
    for _ in 0..RECORDS {
        for _ in 0..RECORD {
            state = draw(state);
            octets.push(((state >> 33) % 256) as u8)?;
        }
    }
    Ok(octets)
}

/// The rules of the filter.
fn rules(alloc: Global) -> Result<String, AllocError> {
    let mut text = String::new(alloc);
    for id in 1000u32..2022 {
        let rule = format!(in alloc; "{{ id = {id}, test = \"present\", act = \"drop\" }}, ")?;
        text.push_str(rule.as_str())?;
    }
    text.push_str("{ id = 4, test = \"between\", low = 0, high = 127, act = \"drop\" }, ")?;
    text.push_str("{ id = 8, test = \"prefix\", value = \"10.1.0.0/16\", act = \"drop\" }")?;
    Ok(text)
}

/// The rows of the anonymiser: 512 of each length.
fn rows(alloc: Global) -> Result<String, AllocError> {
    let mut text = String::new(alloc);
    for bits in [12u32, 14, 16, 18, 20, 22, 24, 28] {
        for number in 0u32..512 {
            let address = number.wrapping_mul(2654435769) & (u32::MAX << (32 - bits));
            let [a, b, c, d] = address.to_be_bytes();
            let row = format!(in alloc;
                "{{ from = \"{a}.{b}.{c}.{d}/{bits}\", to = \"{a}.{b}.{c}.{d}\" }}, "
            )?;
            text.push_str(row.as_str())?;
        }
    }
    Ok(text)
}

/// The description of a task.
pub fn description(alloc: Global, task: Task) -> Result<String, AllocError> {
    let mut text = String::from_str(alloc, "version = 1\nintermediate = [{ name = \"it\", ")?;
    match task {
        Task::Filter => {
            text.push_str("kind = \"filter\", rule = [")?;
            text.push_str(rules(alloc)?.as_str())?;
        }
        Task::Rows => {
            text.push_str("kind = \"anonymise\", field = [{ id = 8 }, { id = 12 }], row = [")?;
            text.push_str(rows(alloc)?.as_str())?;
        }
        Task::Cut => {
            text.push_str("kind = \"anonymise\", cut4 = 20, field = [{ id = 8 }, { id = 12 }")?;
        }
    }
    text.push_str("] }]\n")?;
    text.push_str(BEHIND)?;
    Ok(text)
}
