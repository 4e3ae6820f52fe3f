//! The first bits of addresses: whether they agree with a prefix, others in their place, and zeros behind them.
#![tactic(auto)]

mod agree;
mod change;

pub use agree::{agrees, top_bits};
pub use change::{keep_bits, put_bits};
