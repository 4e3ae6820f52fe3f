//! What was made of the definitions of sessions, such as prepared lines: kept beside them by session, domain and Template ID,
//! and found in constant time.
//!
//! What is found was made of the very definition that is asked for. A definition that changes takes the place of the one
//! before it, and what was kept of a session goes when it closes. Of a session at most 1,024 forms are kept, since a template
//! that is withdrawn isn't told here: where one more comes all others of the session go. Contracts see what is kept under two numbers (`kept`), that
//! of a session and that of a Template ID of a domain; each has its own (`each_has_its_own_number`).
#![tactic(auto)]

mod forms;
mod numbers;
mod session;

pub use forms::KeptForms;
pub use numbers::each_has_its_own_number;
