// What was found in the sets of a message.
use crate::counts::SetCounts;
use pipeline_message::DataSet;

/// The sets with records, where these stand in the octets of the message, with the counts of all sets, and the sequence
/// number that is due behind them.
#[derive(Drop)]
pub struct Decoded {
    pub sets: Vec<DataSet>,
    pub counts: SetCounts,
    pub due: Option<u32>,
}
