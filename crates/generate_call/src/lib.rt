//! The command `generate`: generated load runs through a fixed description, and what came of it is told.
//!
//! Its description is read from its text, as one of `collect` is; its one source is the generator of load, and its sinks keep
//! the number of octets alone, so that nothing is opened. The run itself is that of `described_run`. The contract is `Calls` of
//! call_spec. The top call stands above.
#![tactic(auto)]

mod call;
mod description;
mod load;

pub use call::generate_run;
pub use description::{load_conf, the_description_of_generate_is_accepted};
pub use load::{Load, run_load};
