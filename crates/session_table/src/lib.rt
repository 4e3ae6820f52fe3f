//! The open sessions of an input (RFC 7011, section 2, Transport Session): connections and peers in order of opening, which
//! session what comes belongs to, and which sessions close.
//!
//! Contracts see a table of rows, the connections and the peers in order of opening. An input has the ones or the others.
#![tactic(auto)]

mod arrival;
mod connections;
mod peers;
mod place;
mod sessions;

pub use arrival::Arrival;
pub use place::Where;
pub use sessions::Sessions;
