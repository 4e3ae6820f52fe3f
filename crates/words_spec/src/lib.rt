//! What the words of the command line ask for. The definitions are in specs/; here stand their laws and
//! examples, each as the contract of an empty function.
#![tactic(auto)]

mod example;
mod number;

pub use example::{
    a_description_is_named_in_three_ways, a_name_may_be_a_word_of_the_command_line,
    all_other_words_are_refused, each_command_has_its_words, numbers_have_their_ranges,
};
pub use number::a_number_is_its_decimal_text;
