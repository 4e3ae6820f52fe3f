//! The inputs of a description: made over their sources, and given back.
//!
//! `make_inputs` makes each input over the source of its place in the description, and leaves the vector of sources empty
//! with its room, so that `give_back` puts them there again without taking memory; `put` and `turn_round` serve sinks as
//! well. `note_ends` and `total_counts` tell how all ended and what was counted. The run of a description stands above.
#![tactic(auto)]

mod ends;
mod give;
mod make;
mod totals;

pub use ends::note_ends;
pub use give::{give_back, put, turn_round};
pub use make::make_inputs;
pub use totals::total_counts;
