//! The intermediates of a description in turn: the records of a set go through all of them, and each keeps them or not, or
//! changes them.
//!
//! `Stage` is an intermediate with what its table is prepared to, once; `PreparedStage` is what it is prepared to for the
//! records of one definition, once for each. `Left` is what is left of a set behind them: places of records in the octets of
//! the message, or, where an anonymiser changes records, in copies of them. It is kept from set to set with its memory.
//!
//! Contracts see a stage as what the description says that it does, and what is left as records of the definition
//! (`AreLeft`): those that the definitions give behind the intermediates, one after another (`records_behind`).
#![tactic(auto)]

mod laws;
mod left;
mod pass;
mod stage;

pub use laws::a_message_goes_set_by_set;
pub use left::{Left, first_change, some_changes};
pub use stage::{PreparedStage, Stage};
