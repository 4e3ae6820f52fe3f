// Laws of what plays no part in the decoding of an arrival.
ghost use Rattle.std.specs.Prelude.{◌≡◌, ◌∷◌, ◌++◌, [], List, Ok, Some, false, filter};
ghost use Rattle.col_base.specs.declared.base.SessionKey.{SessionKey};
ghost use Rattle.col_base.specs.declared.base.Transport.TheVariants.{Udp};
ghost use Rattle.wire_spec.specs.Content.{Message};
ghost use Rattle.arrival_spec.specs.Arrival.Arrival.{Raw};
ghost use Rattle.run_spec.specs.Read.{ReadArrival};
ghost use Rattle.run_spec.specs.Judge.{Inputs, Judgement, is_taken, judgement};
ghost use Rattle.run_spec.specs.Work.{outcomes_of, works_after, works_of};
ghost use Rattle.run_spec.specs.Apart.{is_of, without_withdrawals};

/// A dropped message, be it malformed, crowded out or late, gives nothing, and what follows it is judged and decoded as
/// without it.
pub fn a_dropped_message_changes_nothing()
    ensures own { (inputs : Inputs) (before : List ReadArrival) (a : ReadArrival) (j : Judgement) → judgement inputs before a ≡ Some j → is_taken j ≡ false → outcomes_of inputs before a ≡ [] }
    ensures behind { (inputs : Inputs) (before after : List ReadArrival) (a : ReadArrival) (j : Judgement) → judgement inputs before a ≡ Some j → is_taken j ≡ false
        → works_after inputs (before ++ a ∷ []) after ≡ works_after inputs before after }
{}

/// Over UDP the withdrawals of a message change nothing: its sets, and what follows it, give the same without them.
pub fn over_udp_withdrawals_change_nothing()
    ensures own { (inputs : Inputs) (before : List ReadArrival) (key : SessionKey) (m : Message) → (inputs key.input).transport ≡ Udp → outcomes_of inputs before (Raw key (Ok m)) ≡ outcomes_of inputs before (Raw key (Ok (without_withdrawals m))) }
    ensures behind { (inputs : Inputs) (before after : List ReadArrival) (key : SessionKey) (m : Message) → (inputs key.input).transport ≡ Udp
        → works_after inputs (before ++ Raw key (Ok m) ∷ []) after ≡ works_after inputs (before ++ Raw key (Ok (without_withdrawals m)) ∷ []) after }
{}

/// Each session is judged and decoded as if it were alone: two sessions never share templates.
pub fn sessions_are_decoded_apart()
    ensures { (inputs : Inputs) (key : SessionKey) (list : List ReadArrival) → filter (λ w. is_of key w.arrival) (works_of inputs list) ≡ works_of inputs (filter (is_of key) list) }
{}
