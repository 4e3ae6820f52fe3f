//! What a description is: the settings of a run that a TOML text stands for, or the text's first fault.
//! The definitions are in specs/, over the finished tree of the text; here stand the plain types that they
//! speak of, the laws of the definitions and the examples, each as the contract of an empty function.
#![tactic(auto)]

mod conf;
mod domains;
pub mod examples;
mod fault;
mod key;
mod key_row;
pub mod laws;
mod listed;
mod marked;
mod tables;

pub use conf::{
    Conf, InputConf, Inputs, Names, OutputConf, OutputKind, Outputs, StageConf, StageWork, Stages,
};
pub use domains::{DomainRange, DomainSet, Ranges};
pub use fault::ConfFault;
pub use key::{Choice, Key, TableKind, TableSort, Version};
pub use key_row::{KeyRow, Need, Shape, Verdict};
pub use listed::Listed;
pub use marked::Marked;
pub use tables::{
    AnonRow, AnonRows, AnonTable, FilterTable, Pair, Pairs, Prefix, Rule, Rules, Test,
};
