//! The templates of one session of a file: the first 1,024 observation domains of the session, each with the
//! definitions that are valid in it (RFC 7011, sections 3.1, 8 and 8.1). After any well-formed messages, and amid the
//! next, they stand for exactly the template records that came (`StandFor`, `StandAmid`).
#![tactic(auto)]

mod domain_templates;
mod domains;

pub use domain_templates::DomainTemplates;
pub use domains::Domains;
