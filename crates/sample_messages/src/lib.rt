//! Example messages for tests (RFC 7011, sections 3.1 to 3.4): each is a constant of octets. The definitions have examples of
//! the same names, which say what each message says, and the laws here tie the two. The files of `examples/` have the same
//! octets.
#![tactic(auto)]

mod law;
mod messages;

pub use law::{messages_are_those_of_the_definitions, parts_stand_in_their_messages};
pub use messages::{
    DATA_ALONE, EMPTY_TEMPLATE, FIRST_TEMPLATE, FLOW_RECORD, FLOW_SPECIFIERS, NAME_SPECIFIERS,
    NAMES_BODY, NO_SETS, ONE_FLOW, OPTIONS, OPTIONS_RECORD, OPTIONS_SPECIFIERS, PADDED_FLOW,
    PADDED_FLOW_BODY, REPEATED_ELEMENT, REPEATED_RECORD, REPEATED_SPECIFIERS, SECOND_TEMPLATE,
    TWO_FLOWS, TWO_FLOWS_BODY, TWO_TEMPLATES, VARIABLE_NAMES, WITHDRAWAL,
};
