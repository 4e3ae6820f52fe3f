// What came of a source.

/// How many messages there were and how many octets, the sum of these, and the sum of what that was behind each octet, which
/// tells one order from another.
#[derive(Clone, Copy)]
pub struct Tally {
    pub messages: u32,
    pub octets: u64,
    pub sum: u64,
    pub sums: u64,
}

impl Tally {
    pub const NONE: Tally = Tally {
        messages: 0,
        octets: 0,
        sum: 0,
        sums: 0,
    };

    /// Adds a message.
    pub fn add(&mut self, message: &[u8]) {
        self.messages = self.messages.saturating_add(1);
        self.octets = self.octets.saturating_add(message.len() as u64);
        for octet in message {
            self.sum = self.sum.wrapping_add(u64::from(*octet));
            self.sums = self.sums.wrapping_add(self.sum);
        }
    }
}
