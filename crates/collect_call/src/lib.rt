//! The command `collect`: a description is read and run, and what came of it is told.
//!
//! The description and its element files are read by `described_texts`. Then the intermediates and the makers of all outputs'
//! texts are made, `described_run` runs the description over the Site, and `run_lines` tells what came of it. The contract is
//! `Calls` of call_spec. The top call stands above.
#![tactic(auto)]

mod call;
mod prepare;
mod report;

pub use call::collect_run;
pub use prepare::{Prepared, make_ready};
