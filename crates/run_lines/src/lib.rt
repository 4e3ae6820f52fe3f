//! What is printed of a call, and its status: lines of faults in a fixed order, and the summary of a run's counts.
//!
//! Each line is said by one call. Where one can't be said nothing more is: what was said is then a front of the lines.
//! Contracts name the whole text, and `Says` tells how much of it was said. The commands stand above.
#![tactic(auto)]

mod codes;
mod count_row;
mod ended;
mod faults;
mod lengths;
mod run;
mod saying;
mod summary;

pub use codes::{end_code, ended_code, fault_code, said_code, wanted_code};
pub use count_row::{CountName, CountRow};
pub use ended::Ended;
pub use faults::{say_input, say_log, say_output, say_sink};
pub use lengths::report_load;
pub use run::{report_run, say_run};
pub use saying::{Piece, elements_head, named_line, say, say_named, say_piece};
pub use summary::say_summary;
