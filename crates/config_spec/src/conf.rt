// A description.
use crate::domains::DomainSet;
use crate::listed::Listed;
use crate::tables::{AnonTable, FilterTable};
use arrival_spec::InputSpec;
use col_base::{Lifetimes, Text};

pub type Names = Listed<Text>;

pub type Inputs = Listed<InputConf>;

pub type Stages = Listed<StageConf>;

pub type Outputs = Listed<OutputConf>;

/// What a description says.
#[derive(Clone, Debug, PartialEq, Eq, Drop)]
pub struct Conf {
    /// How many messages each ring holds, 1 to 4,096.
    pub ring: u16,
    /// How many template snapshots an input may hold at once, 1 to 65,536.
    pub slots: u32,
    /// Where the order log is written: always with two or more inputs, never with one.
    pub order_log: Option<Text>,
    /// The element tables, at most 16.
    pub elements: Names,
    /// At most 16.
    pub inputs: Inputs,
    /// The intermediates, at most 16.
    pub stages: Stages,
    /// At most 32.
    pub outputs: Outputs,
}

/// An input.
#[derive(Clone, Debug, PartialEq, Eq, Drop)]
pub struct InputConf {
    pub spec: InputSpec,
    /// After how many events it ends, up to 2^63 - 1; 0 is no limit.
    pub stop_after: u64,
    /// Seconds, 1 to 1,000,000,000 each.
    pub life: Lifetimes,
    /// After how many seconds of silence a session over UDP closes, 1 to 1,000,000,000.
    pub idle: u32,
}

/// An intermediate.
#[derive(Clone, Debug, PartialEq, Eq, Drop)]
pub struct StageConf {
    pub name: Text,
    pub work: StageWork,
}

/// What an intermediate does.
#[derive(Clone, Debug, PartialEq, Eq, Drop)]
pub enum StageWork {
    Filter(FilterTable),
    Anonymise(AnonTable),
}

/// An output.
#[derive(Clone, Debug, PartialEq, Eq, Drop)]
pub struct OutputConf {
    pub name: Text,
    pub path: Text,
    pub kind: OutputKind,
    pub domains: DomainSet,
}

/// What an output writes.
#[derive(Clone, Copy, Debug, PartialEq, Eq)]
pub enum OutputKind {
    /// Lines of JSON; options records too, if wanted.
    Json { options: bool },
    /// An IPFIX File, whose template IDs go up to the last one, 256 to 65,535.
    Ipfix { last_id: u16 },
    View,
}
