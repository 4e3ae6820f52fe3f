// The keys and the tables of a description.

/// The version of a description, which says which keys its tables have.
#[derive(Clone, Copy, PartialEq, Eq)]
pub enum Version {
    One,
}

/// A key of a table.
#[derive(Clone, Copy, PartialEq, Eq)]
pub enum Key {
    Version,
    Ring,
    Slots,
    OrderLog,
    Elements,
    Input,
    Intermediate,
    Output,
    Kind,
    Name,
    Path,
    Listen,
    StopAfter,
    TemplateLifetime,
    OptionsLifetime,
    Late,
    Idle,
    Default,
    Rule,
    Pen,
    Id,
    Test,
    Act,
    Value,
    Low,
    High,
    Field,
    Cut4,
    Cut6,
    Row,
    From,
    To,
    OdidOnly,
    OdidExcept,
    Options,
    LastTemplateId,
}

/// The kinds of tables. Each has its keys.
#[derive(Clone, Copy, PartialEq, Eq)]
pub enum TableKind {
    /// The top table.
    Top,
    /// The top table where `input` is one table alone.
    SingleTop,
    File,
    Tcp,
    Udp,
    Filter,
    Anonymise,
    Present,
    Equal,
    Between,
    Prefix,
    Field,
    Row,
    Json,
    Ipfix,
    View,
}

/// What a table is for.
#[derive(Clone, Copy, PartialEq, Eq)]
pub enum TableSort {
    Input,
    Intermediate,
    Output,
    Rule,
    Field,
    Row,
}

/// What decides the kind of a table: the word at a key, or nothing, where there is one kind.
#[derive(Clone, Copy, PartialEq, Eq)]
pub enum Choice {
    By(Key),
    Always(TableKind),
}
