//! The description: what a TOML text asks of a run, or the text's first fault.
//!
//! `read` is the definition of `config_spec`, fault for fault. What it answers is given on to whoever builds
//! a run, opens its files or prints the fault.
#![tactic(auto)]

mod description;
mod fault;
mod made;
mod repeats;
mod values;

pub use arrival_spec::InputSpec;
pub use config_spec::{
    AnonRow, AnonRows, AnonTable, Conf, ConfFault, DomainRange, DomainSet, FilterTable, InputConf,
    Inputs, Listed, Names, OutputConf, OutputKind, Outputs, Pair, Pairs, Prefix, Ranges, Rule,
    Rules, StageConf, StageWork, Stages, Test,
};
pub use description::read;
pub use fault::fault_text;
