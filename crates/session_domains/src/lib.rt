//! The observation domains of a session: each has its templates, and the sequence number that is due (RFC 7011, sections 3.1,
//! 8 and 8.1). A session keeps its first 1,024 domains; a domain is found without a search.
//!
//! Contracts say which well-formed messages of the session the domains stand for (`StandFor`), and that a message more is
//! judged and decoded as the definitions say (`Takes`).
#![tactic(auto)]

mod domain;
mod domains;
mod fate;

pub use domains::Domains;
pub use fate::{Fate, TakenMessage};
