// Laws of generated messages.
ghost use Rattle.std.specs.Prelude.{◌≡◌, ℕ, List};
ghost use Rattle.wire_spec.specs.Record.{IsRecords, shortest};
ghost use Rattle.wire_spec.specs.Content.{Says};
ghost use Rattle.load_spec.specs.Draws.{draws};
ghost use Rattle.load_spec.specs.Load.{fields_at, message_drawn, records_size_at};
ghost use Rattle.load_spec.specs.Said.{WasDefinedLast, message_said, records_drawn};

/// Each generated message is a message, and says a definition, where one is due, and the octets that are drawn; and these are
/// four records of the fields of its place.
pub fn a_generated_message_says_four_records()
    ensures says { (x i : ℕ) → Says (message_drawn x i) (message_said x i) }
    ensures records { (x q : ℕ) → IsRecords (fields_at q) (draws (records_size_at q) x) (records_drawn 4 (shortest (fields_at q)) x) }
{}

/// The fields of a message's records are those that were defined last in its domain, by the message itself or one before it.
pub fn fields_are_those_that_were_defined_last()
    ensures { (q : ℕ) → (p : ℕ) × WasDefinedLast p q }
{}
