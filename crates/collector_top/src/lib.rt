//! The top call: words in, a status out. Every run of the program is one call of `collect_main` over a Site.
//!
//! It has the words of the command line, and the order in which the things of `direct` are opened and refused; lines and
//! statuses are `run_lines`. Each command states one relation, `Calls` of call_spec: what came of it, and all that follows.
//! The work of `direct` is `file_lines`, that of `collect` is `collect_call`, and `check` reads with `described_texts`. The
//! program stands above.
#![tactic(auto)]

mod call;
mod check;
mod direct;
mod report;
mod words;

pub use call::collect_main;
pub use check::check_run;
pub use direct::direct_run;
