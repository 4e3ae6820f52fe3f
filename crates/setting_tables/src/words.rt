// The words of a description.
ghost use Rattle.std.specs.Prelude.{◌≡◌};
ghost use Rattle.config_spec.specs.Keys.{word_of, kind_word, choice_of, kinds_of, children_of};

use config_spec::{Choice, Key, TableKind, TableSort, Version};

/// The key as it is written.
#[tactic(auto, unfolding(config_spec::specs::Keys::word_of))]
pub fn word_of(key: Key) -> &'static str
    ensures { result.now ≡ word_of key }
{
    match key {
        Key::Version => "version",
        Key::Ring => "ring",
        Key::Slots => "slots",
        Key::OrderLog => "order-log",
        Key::Elements => "elements",
        Key::Input => "input",
        Key::Intermediate => "intermediate",
        Key::Output => "output",
        Key::Kind => "kind",
        Key::Name => "name",
        Key::Path => "path",
        Key::Listen => "listen",
        Key::StopAfter => "stop-after",
        Key::TemplateLifetime => "template-lifetime",
        Key::OptionsLifetime => "options-lifetime",
        Key::Late => "late",
        Key::Idle => "idle",
        Key::Default => "default",
        Key::Rule => "rule",
        Key::Pen => "pen",
        Key::Id => "id",
        Key::Test => "test",
        Key::Act => "act",
        Key::Value => "value",
        Key::Low => "low",
        Key::High => "high",
        Key::Field => "field",
        Key::Cut4 => "cut4",
        Key::Cut6 => "cut6",
        Key::Row => "row",
        Key::From => "from",
        Key::To => "to",
        Key::OdidOnly => "odid-only",
        Key::OdidExcept => "odid-except",
        Key::Options => "options",
        Key::LastTemplateId => "last-template-id",
    }
}

/// The word that chooses the kind.
#[tactic(auto, unfolding(config_spec::specs::Keys::kind_word))]
pub fn kind_word(kind: TableKind) -> &'static str
    ensures { result.now ≡ kind_word kind }
{
    match kind {
        TableKind::File => "file",
        TableKind::Tcp => "tcp",
        TableKind::Udp => "udp",
        TableKind::Filter => "filter",
        TableKind::Anonymise => "anonymise",
        TableKind::Present => "present",
        TableKind::Equal => "equal",
        TableKind::Between => "between",
        TableKind::Prefix => "prefix",
        TableKind::Json => "json",
        TableKind::Ipfix => "ipfix",
        TableKind::View => "view",
        TableKind::Top | TableKind::SingleTop | TableKind::Field | TableKind::Row => "",
    }
}

/// What decides the kind of a table.
pub fn choice_of(sort: TableSort) -> Choice
    ensures { result ≡ choice_of sort }
{
    match sort {
        TableSort::Input | TableSort::Intermediate | TableSort::Output => Choice::By(Key::Kind),
        TableSort::Rule => Choice::By(Key::Test),
        TableSort::Field => Choice::Always(TableKind::Field),
        TableSort::Row => Choice::Always(TableKind::Row),
    }
}

const INPUT_KINDS: [TableKind; 3] = [TableKind::File, TableKind::Tcp, TableKind::Udp];

const STAGE_KINDS: [TableKind; 2] = [TableKind::Filter, TableKind::Anonymise];

const OUTPUT_KINDS: [TableKind; 3] = [TableKind::Json, TableKind::Ipfix, TableKind::View];

const RULE_KINDS: [TableKind; 4] = [
    TableKind::Present,
    TableKind::Equal,
    TableKind::Between,
    TableKind::Prefix,
];

const NO_KINDS: [TableKind; 0] = [];

/// The kinds that a word chooses from.
#[tactic(auto, unfolding(config_spec::specs::Keys::kinds_of))]
pub fn kinds_of(version: Version, sort: TableSort) -> &'static [TableKind]
    ensures { result.now ≡ kinds_of version sort }
{
    match version {
        Version::One => match sort {
            TableSort::Input => &INPUT_KINDS,
            TableSort::Intermediate => &STAGE_KINDS,
            TableSort::Output => &OUTPUT_KINDS,
            TableSort::Rule => &RULE_KINDS,
            TableSort::Field | TableSort::Row => &NO_KINDS,
        },
    }
}

const TOP_TABLES: [(Key, TableSort); 3] = [
    (Key::Input, TableSort::Input),
    (Key::Intermediate, TableSort::Intermediate),
    (Key::Output, TableSort::Output),
];

const FILTER_TABLES: [(Key, TableSort); 1] = [(Key::Rule, TableSort::Rule)];

const ANONYMISER_TABLES: [(Key, TableSort); 2] = [
    (Key::Field, TableSort::Field),
    (Key::Row, TableSort::Row),
];

const NO_TABLES: [(Key, TableSort); 0] = [];

/// The arrays of tables in a table of a kind, in their order.
#[tactic(auto, unfolding(config_spec::specs::Keys::children_of))]
pub fn children_of(version: Version, kind: TableKind) -> &'static [(Key, TableSort)]
    ensures { result.now ≡ children_of version kind }
{
    match version {
        Version::One => match kind {
            TableKind::Top | TableKind::SingleTop => &TOP_TABLES,
            TableKind::Filter => &FILTER_TABLES,
            TableKind::Anonymise => &ANONYMISER_TABLES,
            _ => &NO_TABLES,
        },
    }
}
