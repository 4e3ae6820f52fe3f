//! What a call of a command promises: one relation over what a Site showed before the call and shows after it.
//!
//! *What came of it* is that the words were refused; that there was no fault to tell; that the call was refused before
//! its run; or that it ran, with what each input gave and why it ended, and why each output ended, if it did (`Came`).
//! From that alone follow the contents, the numbers of openings, the counts of faults, the lines and the status
//! (`Calls`). Lists of inputs and of outputs are walked pairwise by one word, `Each`, and counts are said by name: how
//! often a name was opened, and whether something of it failed. So two inputs may share a place.
//!
//! It has definitions alone, with the plain type that they share with the code, and what they mean: which faults can give a
//! status, that what an output of files holds is read as what came to it, and how examples of runs end, each as the contract of
//! an empty function. Laws of lists side by side stand in its proofs.
#![tactic(auto)]

mod again;
mod cause;
mod end;
mod example;

pub use again::what_an_output_of_files_holds_is_read_again;
pub use cause::{
    a_run_without_a_cause_is_done, a_status_has_its_cause, generated_load_has_no_other_fault,
};
pub use end::{InputEnd, OutputFault};
pub use example::{
    a_log_has_an_entry_for_each_arrival, an_input_ends_with_nothing_left,
    an_output_ends_at_its_limit, faults_have_their_lines_in_order,
    no_text_is_written_before_its_entry, summaries_have_seventeen_lines,
    the_greatest_status_is_answered,
};
