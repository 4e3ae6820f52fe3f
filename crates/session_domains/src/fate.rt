// What becomes of a message.
use message_decode::SetCounts;
use pipeline_message::DataSet;

/// What was found in a message that is taken.
#[derive(Drop)]
pub struct TakenMessage {
    /// Its sets with records.
    pub sets: Vec<DataSet>,
    /// The counts of its sets.
    pub counts: SetCounts,
    /// How many data records are missing before it, by its sequence number.
    pub lost: u32,
    /// Whether its sequence number is behind the one that was due.
    pub behind: bool,
}

/// What becomes of a well-formed message.
#[derive(Drop)]
pub enum Fate {
    /// Its domain isn't among the first 1,024 of its session.
    Crowded,
    /// Over UDP, its export time lies too far behind the newest of its domain.
    Late,
    /// It counts.
    Taken(TakenMessage),
}
