//! The load that `generate` runs on: which events it has, octet by octet. The definitions are in specs/; here stand their
//! laws and examples, each as the contract of an empty function.
#![tactic(auto)]

mod counts;
mod draws;
mod example;
mod message;
mod stream;

pub use counts::generated_messages_are_counted;
pub use draws::draws_go_on;
pub use example::{
    templates_come_every_250_messages_of_a_domain, the_first_events_are_these,
    the_last_message_is_of_domain_4, the_octets_of_a_state_are_these,
};
pub use message::{a_generated_message_says_four_records, fields_are_those_that_were_defined_last};
pub use stream::generated_events_are_one_stream;
