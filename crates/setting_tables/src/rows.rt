// The keys of each table. What later versions add, they add here.
ghost use Rattle.std.specs.Prelude.{◌≡◌};
ghost use Rattle.config_spec.specs.Keys.{rows_of};

use config_spec::{Key, KeyRow, Need, Shape, TableKind, Version};

/// 2^63 - 1.
const MOST: u64 = 0x7fff_ffff_ffff_ffff;

const SECONDS: Shape = Shape::Number(1, 1_000_000_000);

const VERSION: KeyRow = KeyRow {
    key: Key::Version,
    shape: Shape::Number(1, 1),
    need: Need::Required,
};

pub const RING: KeyRow = KeyRow {
    key: Key::Ring,
    shape: Shape::Number(1, 4096),
    need: Need::Number(256),
};

pub const SLOTS: KeyRow = KeyRow {
    key: Key::Slots,
    shape: Shape::Number(1, 65536),
    need: Need::Number(65536),
};

const ORDER_LOG: KeyRow = KeyRow {
    key: Key::OrderLog,
    shape: Shape::Place,
    need: Need::Optional,
};

const ELEMENTS: KeyRow = KeyRow {
    key: Key::Elements,
    shape: Shape::Places(16),
    need: Need::Optional,
};

const INPUT: KeyRow = KeyRow {
    key: Key::Input,
    shape: Shape::Tables(0, 16),
    need: Need::Optional,
};

const INTERMEDIATE: KeyRow = KeyRow {
    key: Key::Intermediate,
    shape: Shape::Tables(0, 16),
    need: Need::Optional,
};

const OUTPUT: KeyRow = KeyRow {
    key: Key::Output,
    shape: Shape::Tables(0, 32),
    need: Need::Optional,
};

const KIND: KeyRow = KeyRow {
    key: Key::Kind,
    shape: Shape::Chosen,
    need: Need::Required,
};

const NAME: KeyRow = KeyRow {
    key: Key::Name,
    shape: Shape::Name,
    need: Need::Required,
};

const PATH: KeyRow = KeyRow {
    key: Key::Path,
    shape: Shape::Place,
    need: Need::Required,
};

const LISTEN: KeyRow = KeyRow {
    key: Key::Listen,
    shape: Shape::Place,
    need: Need::Required,
};

pub const STOP_AFTER: KeyRow = KeyRow {
    key: Key::StopAfter,
    shape: Shape::Number(0, MOST),
    need: Need::Number(0),
};

pub const TEMPLATE_LIFETIME: KeyRow = KeyRow {
    key: Key::TemplateLifetime,
    shape: SECONDS,
    need: Need::Number(1800),
};

pub const OPTIONS_LIFETIME: KeyRow = KeyRow {
    key: Key::OptionsLifetime,
    shape: SECONDS,
    need: Need::Number(1800),
};

pub const LATE: KeyRow = KeyRow {
    key: Key::Late,
    shape: SECONDS,
    need: Need::Number(1800),
};

pub const IDLE: KeyRow = KeyRow {
    key: Key::Idle,
    shape: SECONDS,
    need: Need::Number(600),
};

pub const DEFAULT_ACT: KeyRow = KeyRow {
    key: Key::Default,
    shape: Shape::Act,
    need: Need::Flag(true),
};

const RULE: KeyRow = KeyRow {
    key: Key::Rule,
    shape: Shape::Tables(0, 1024),
    need: Need::Optional,
};

pub const PEN: KeyRow = KeyRow {
    key: Key::Pen,
    shape: Shape::Number(0, 4294967295),
    need: Need::Number(0),
};

pub const ID: KeyRow = KeyRow {
    key: Key::Id,
    shape: Shape::Number(0, 32767),
    need: Need::Required,
};

const TEST: KeyRow = KeyRow {
    key: Key::Test,
    shape: Shape::Chosen,
    need: Need::Required,
};

pub const ACT: KeyRow = KeyRow {
    key: Key::Act,
    shape: Shape::Act,
    need: Need::Required,
};

pub const VALUE: KeyRow = KeyRow {
    key: Key::Value,
    shape: Shape::Number(0, MOST),
    need: Need::Required,
};

const VALUE_PREFIX: KeyRow = KeyRow {
    key: Key::Value,
    shape: Shape::Prefix,
    need: Need::Required,
};

pub const LOW: KeyRow = KeyRow {
    key: Key::Low,
    shape: Shape::Number(0, MOST),
    need: Need::Required,
};

pub const HIGH: KeyRow = KeyRow {
    key: Key::High,
    shape: Shape::From(Key::Low, MOST),
    need: Need::Required,
};

const FIELD: KeyRow = KeyRow {
    key: Key::Field,
    shape: Shape::Tables(1, 64),
    need: Need::Required,
};

pub const CUT4: KeyRow = KeyRow {
    key: Key::Cut4,
    shape: Shape::Number(0, 32),
    need: Need::Number(32),
};

pub const CUT6: KeyRow = KeyRow {
    key: Key::Cut6,
    shape: Shape::Number(0, 128),
    need: Need::Number(128),
};

const ROW_OF_ROWS: KeyRow = KeyRow {
    key: Key::Row,
    shape: Shape::Tables(0, 4096),
    need: Need::Optional,
};

const FROM: KeyRow = KeyRow {
    key: Key::From,
    shape: Shape::Prefix,
    need: Need::Required,
};

const TO: KeyRow = KeyRow {
    key: Key::To,
    shape: Shape::Like(Key::From),
    need: Need::Required,
};

const ODID_ONLY: KeyRow = KeyRow {
    key: Key::OdidOnly,
    shape: Shape::Domains,
    need: Need::Optional,
};

const ODID_EXCEPT: KeyRow = KeyRow {
    key: Key::OdidExcept,
    shape: Shape::DomainsWithout(Key::OdidOnly),
    need: Need::Optional,
};

pub const OPTIONS: KeyRow = KeyRow {
    key: Key::Options,
    shape: Shape::Flag,
    need: Need::Flag(true),
};

pub const LAST_TEMPLATE_ID: KeyRow = KeyRow {
    key: Key::LastTemplateId,
    shape: Shape::Number(256, 65535),
    need: Need::Number(65535),
};

const TOP_ROWS: [KeyRow; 8] = [
    VERSION,
    RING,
    SLOTS,
    ORDER_LOG,
    ELEMENTS,
    INPUT,
    INTERMEDIATE,
    OUTPUT,
];

const SINGLE_TOP_ROWS: [KeyRow; 7] = [VERSION, RING, SLOTS, ELEMENTS, INPUT, INTERMEDIATE, OUTPUT];

const FILE_ROWS: [KeyRow; 4] = [KIND, NAME, PATH, STOP_AFTER];

const TCP_ROWS: [KeyRow; 4] = [KIND, NAME, LISTEN, STOP_AFTER];

const UDP_ROWS: [KeyRow; 8] = [
    KIND,
    NAME,
    LISTEN,
    STOP_AFTER,
    TEMPLATE_LIFETIME,
    OPTIONS_LIFETIME,
    LATE,
    IDLE,
];

const FILTER_ROWS: [KeyRow; 4] = [KIND, NAME, DEFAULT_ACT, RULE];

const ANONYMISE_ROWS: [KeyRow; 6] = [KIND, NAME, FIELD, CUT4, CUT6, ROW_OF_ROWS];

const PRESENT_ROWS: [KeyRow; 4] = [PEN, ID, TEST, ACT];

const EQUAL_ROWS: [KeyRow; 5] = [PEN, ID, TEST, ACT, VALUE];

const BETWEEN_ROWS: [KeyRow; 6] = [PEN, ID, TEST, ACT, LOW, HIGH];

const PREFIX_ROWS: [KeyRow; 5] = [PEN, ID, TEST, ACT, VALUE_PREFIX];

const FIELD_ROWS: [KeyRow; 2] = [PEN, ID];

const ROW_ROWS: [KeyRow; 2] = [FROM, TO];

const JSON_ROWS: [KeyRow; 6] = [KIND, NAME, PATH, ODID_ONLY, ODID_EXCEPT, OPTIONS];

const IPFIX_ROWS: [KeyRow; 6] = [KIND, NAME, PATH, ODID_ONLY, ODID_EXCEPT, LAST_TEMPLATE_ID];

const VIEW_ROWS: [KeyRow; 5] = [KIND, NAME, PATH, ODID_ONLY, ODID_EXCEPT];

/// The keys of a table of a kind, in their order.
#[tactic(auto, unfolding(config_spec::specs::Keys::rows_of))]
pub fn rows_of(version: Version, kind: TableKind) -> &'static [KeyRow]
    ensures { result.now ≡ rows_of version kind }
{
    match version {
        Version::One => match kind {
            TableKind::Top => &TOP_ROWS,
            TableKind::SingleTop => &SINGLE_TOP_ROWS,
            TableKind::File => &FILE_ROWS,
            TableKind::Tcp => &TCP_ROWS,
            TableKind::Udp => &UDP_ROWS,
            TableKind::Filter => &FILTER_ROWS,
            TableKind::Anonymise => &ANONYMISE_ROWS,
            TableKind::Present => &PRESENT_ROWS,
            TableKind::Equal => &EQUAL_ROWS,
            TableKind::Between => &BETWEEN_ROWS,
            TableKind::Prefix => &PREFIX_ROWS,
            TableKind::Field => &FIELD_ROWS,
            TableKind::Row => &ROW_ROWS,
            TableKind::Json => &JSON_ROWS,
            TableKind::Ipfix => &IPFIX_ROWS,
            TableKind::View => &VIEW_ROWS,
        },
    }
}
