// How a run ended.
use call_spec::{InputEnd, OutputFault};
use pipeline_message::RunCounts;
use site_io::OutsideFault;

/// How the inputs, the log, the intermediates and the outputs of a run ended, each in the order of the description, and
/// what was counted.
#[derive(Drop)]
pub struct Ended {
    pub inputs: Vec<InputEnd>,
    /// Why the order log ended, if there is one and it did.
    pub log: Option<OutsideFault>,
    /// Whether each intermediate wanted memory.
    pub stages: Vec<bool>,
    /// Why each output ended, if it did.
    pub outputs: Vec<Option<OutputFault>>,
    pub counts: RunCounts,
}
