// Laws of the octets of a connection.
ghost use Rattle.std.specs.Prelude.{◌≡◌, ◌∷◌, ◌++◌, List, ℕ, Some, false};
ghost use Rattle.wire_spec.specs.Stream.{IsCut};
ghost use Rattle.arrival_spec.specs.declared.event.Scripted.{Scripted};
ghost use Rattle.arrival_spec.specs.declared.event.Scripted.TheVariants.{Bytes};
ghost use Rattle.arrival_spec.specs.Messages.{messages_in};
ghost use Rattle.arrival_spec.specs.Cutting.{cutting};
ghost use Rattle.arrival_spec.specs.Mark.{arrivals_in};
ghost use Rattle.arrival_spec.specs.Settings.{Settings};
ghost use Rattle.arrival_spec.specs.Sessions.{Connection, connection_of, is_datagrams, key_of};
ghost use Rattle.arrival_spec.specs.Run.{run_of, standing_after};

/// Octets of a connection may come in any pieces: two of them, one behind the other, bring what they bring as one, and
/// leave the same behind them. Where the connection isn't open each piece is stray, so that their number is counted.
pub fn octets_may_come_in_any_pieces()
    ensures arrivals { (settings : Settings) (input c : ℕ) (a b : List ℕ) (before after : List Scripted)
        → arrivals_in (run_of settings input (before ++ Bytes c a ∷ Bytes c b ∷ after)).marks ≡ arrivals_in (run_of settings input (before ++ Bytes c (a ++ b) ∷ after)).marks }
    ensures stands { (settings : Settings) (input c : ℕ) (a b : List ℕ) (before after : List Scripted)
        → standing_after settings input (before ++ Bytes c a ∷ Bytes c b ∷ after) ≡ standing_after settings input (before ++ Bytes c (a ++ b) ∷ after) }
{}

/// What arrived in the session of an open connection is the messages of its octets, which are those that came since it
/// opened.
pub fn a_session_brings_the_messages_of_its_octets()
    ensures { (settings : Settings) (input c n : ℕ) (events : List Scripted) (x : Connection) → is_datagrams settings.transport ≡ false → connection_of c (standing_after settings input events) ≡ Some x → x.session ≡ Some n
        → IsCut x.octets (messages_in (key_of input n) (arrivals_in (run_of settings input events).marks)) (cutting x.octets).rest }
{}
