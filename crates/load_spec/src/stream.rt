// The stream that generated events are.
ghost use Rattle.std.specs.Prelude.{◌≡◌, [], ℕ, false};
ghost use Rattle.std.specs.List.{concat};
ghost use Rattle.wire_spec.specs.Stream.{IsCut};
ghost use Rattle.arrival_spec.specs.OneStream.{IsOneStream, one_session};
ghost use Rattle.arrival_spec.specs.Run.{arrivals_of};
ghost use Rattle.arrival_spec.specs.Sessions.{is_datagrams};
ghost use Rattle.arrival_spec.specs.Settings.{Settings};
ghost use Rattle.file_spec.specs.Said.{AreSaid};
ghost use Rattle.load_spec.specs.Load.{load_events, load_messages};
ghost use Rattle.load_spec.specs.Said.{load_said};

/// Generated events are one stream, whose pieces are the messages that it is cut into. They arrive as one session of these
/// messages, and each says what was generated.
pub fn generated_events_are_one_stream()
    ensures stream { (number count : ℕ) → IsOneStream (load_events number count) (load_messages number count) }
    ensures cut { (number count : ℕ) → IsCut (concat (load_messages number count)) (load_messages number count) [] }
    ensures say { (number count : ℕ) → AreSaid (load_messages number count) (load_said number count) }
    ensures arrive { (settings : Settings) (input number count : ℕ) → is_datagrams settings.transport ≡ false → settings.stop_after ≡ 0 → arrivals_of settings input (load_events number count) ≡ one_session input settings.transport (load_messages number count) }
{}
