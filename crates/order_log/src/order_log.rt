// The order log over its sink.
ghost use Rattle.std.specs.Prelude.{◌≡◌, [], None, IsSome, is_none};
ghost use Rattle.order_log.specs.Entries.{Enters, Stands, WritesEntry};

use site_io::{OutsideFault, Sink};

/// The order log.
#[derive(Drop)]
pub struct OrderLog<K> {
    sink: K,
    /// Why it ended, if it has: nothing is written any more.
    fault: Option<OutsideFault>,
}

/// Writes an entry: the number of an input in two octets, the high one first, in one write.
fn write_entry<K: Sink>(sink: &mut K, input: u16) -> Option<OutsideFault>
    ensures { WritesEntry K.held K.faults input sink.old sink.new result }
{
    sink.write(&input.to_be_bytes()).err()
}

impl<K: Sink> OrderLog<K> {
    /// A log without entries over its sink. It takes no memory.
    pub fn new(sink: K) -> Self
        ensures { Stands K.held K.faults sink [] None result }
    {
        OrderLog { sink, fault: None }
    }

    /// Enters an arrival of this input, unless the log has ended. Answers whether its text is to be written.
    pub fn enter(&mut self, input: u16) -> bool
        ensures enters { Enters K.held K.faults input self.old self.new }
        ensures ended { IsSome self.old.fault → self.new ≡ self.old }
        ensures goes_on { result ≡ is_none self.new.fault }
    {
        if self.fault.is_none() {
            self.fault = write_entry(&mut self.sink, input);
        }
        self.fault.is_none()
    }

    /// Why it ended, if it has.
    pub fn fault(&self) -> Option<OutsideFault>
        ensures { result ≡ self.now.fault }
    {
        self.fault
    }

    /// Its sink. It takes no memory.
    pub fn back(self) -> K
        ensures { result ≡ self.sink }
    {
        let OrderLog { sink, .. } = self;
        sink
    }
}
