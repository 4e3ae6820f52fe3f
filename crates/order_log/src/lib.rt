//! The order log of a run: for each arrival, in the order in which they are taken, the number of its input.
//!
//! Entries are written one by one, each before the text of its arrival. A log whose sink failed has ended: it takes no
//! further entry, and then no arrival has a text. Contracts say of a log that it stands for the order of its entries. The
//! run of a description stands above.
#![tactic(auto)]

mod order_log;

pub use order_log::OrderLog;
