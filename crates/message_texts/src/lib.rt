//! What makes the text of an output: the trait by which a run hands it each decoded message.
//!
//! A run puts the messages of all inputs one by one, in the order in which it takes them, and writes the text of each
//! behind those before it. Contracts say of a maker that it stands for the items that were put (`stands`): the text of one
//! message more is what an output's text over these items grows by. So a maker may keep numbers and forms of what came
//! before, and the run knows nothing of them. The run of a description stands above; makers for each kind of output
//! implement it.
#![tactic(auto)]

mod texts;

pub use texts::{MessageTexts, TextFault};
