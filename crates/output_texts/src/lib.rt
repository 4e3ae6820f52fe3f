//! The text of any output of a description: of lines of JSON, a listing, or an IPFIX File, as the output wants it.
//!
//! `OutputTexts` implements `MessageTexts` by what makes the text of its kind, and stands for what that stands for.
#![tactic(auto)]

mod texts;

pub use texts::OutputTexts;
