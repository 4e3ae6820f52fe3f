// Laws of the snapshots that are opened and in use, over all sessions and domains.
ghost use Rattle.std.specs.Prelude.{◌≡◌, ◌≢◌, ◌≤◌, ◌<◌, ◌+◌, ◌∷◌, ◌++◌, [], List, Ok, Err, Result, ℕ, false, length, map, sum_by, take, true};
ghost use Rattle.col_base.specs.declared.base.SessionKey.{SessionKey};
ghost use Rattle.col_base.specs.declared.base.Transport.{Transport};
ghost use Rattle.wire_spec.specs.declared.malformed.Malformed.{Malformed};
ghost use Rattle.wire_spec.specs.Content.{Message};
ghost use Rattle.arrival_spec.specs.Arrival.{input_of};
ghost use Rattle.arrival_spec.specs.Arrival.Arrival.{Periodic, Raw, SessionClose, SessionOpen};
ghost use Rattle.arrival_spec.specs.Order.{are_in_order};
ghost use Rattle.run_spec.specs.Judge.{Inputs};
ghost use Rattle.run_spec.specs.Work.{Work};
ghost use Rattle.count_spec.specs.Counts.{taken_of};
ghost use Rattle.count_spec.specs.Openings.{deeds, domains_of, ended_in, first_sets, in_use, in_use_by, live_at, live_in, live_of, openings_after, opens, pairs, touches_taken};
ghost use Rattle.count_spec.specs.More.{IsOpenOnce, one_if};

/// The openings of a run are those of its sessions and domains with a decoded set. They are at most as many as these, and
/// the template records of the messages that were taken.
pub fn openings_are_at_most_pairs_and_template_records()
    ensures summed { (inputs : Inputs) (works : List Work) → opens inputs works ≡ sum_by (λ p. openings_after (inputs p.0.input).transport [] false (deeds inputs p.0 p.1 works)) (pairs works) }
    ensures most { (inputs : Inputs) (works : List Work) → opens inputs works ≤ length (pairs works) + touches_taken inputs works }
{}

/// In arrivals in order a message, and a closing, come in a session that is open once.
pub fn a_message_comes_in_one_open_session()
    ensures message { (works : List Work) (w : Work) (key : SessionKey) (read : Result Message Malformed) → are_in_order (map (λ v. v.arrival) (works ++ w ∷ [])) ≡ true → w.arrival ≡ Raw key read → IsOpenOnce key works }
    ensures closing { (works : List Work) (w : Work) (key : SessionKey) → are_in_order (map (λ v. v.arrival) (works ++ w ∷ [])) ≡ true → w.arrival ≡ SessionClose key → IsOpenOnce key works }
{}

/// Before a set of a message the snapshots in use are those that were live before the message, with that of the message's
/// own session and domain as it is now in place of as it was, and those that the message used and ended.
pub fn snapshots_in_use_move_with_the_message()
    ensures at { (inputs : Inputs) (before after : List Work) (w : Work) (n : ℕ) → in_use inputs (before ++ w ∷ after) (length before) n ≡ in_use_by inputs before (first_sets n w) }
    ensures cut { (w : Work) (key : SessionKey) (m : Message) (n : ℕ) → taken_of w ≡ (key, m) ∷ [] → taken_of (first_sets n w) ≡ (key, record m { parts = take n m.parts }) ∷ [] }
    ensures used { (inputs : Inputs) (works : List Work) (w : Work) (key : SessionKey) (m : Message) → taken_of w ≡ (key, m) ∷ [] → IsOpenOnce key works
        → in_use_by inputs works w + one_if (live_at inputs key m.domain works) ≡ live_in inputs key.input works + one_if (live_at inputs key m.domain (works ++ w ∷ [])) + ended_in inputs works (key, m) w.outcomes }
{}

/// The number of live snapshots of an input moves by that of a message's own session and domain. A message that is dropped
/// and a tick leave it, and so does what is of another input; a session that closes takes its own away, and one that opens
/// has none.
pub fn live_snapshots_move_arrival_by_arrival()
    ensures taken { (inputs : Inputs) (works : List Work) (w : Work) (key : SessionKey) (m : Message) → taken_of w ≡ (key, m) ∷ [] → IsOpenOnce key works
        → live_in inputs key.input (works ++ w ∷ []) + one_if (live_at inputs key m.domain works) ≡ live_in inputs key.input works + one_if (live_at inputs key m.domain (works ++ w ∷ [])) }
    ensures dropped { (inputs : Inputs) (input : ℕ) (works : List Work) (w : Work) (key : SessionKey) (read : Result Message Malformed) → w.arrival ≡ Raw key read → taken_of w ≡ [] → live_in inputs input (works ++ w ∷ []) ≡ live_in inputs input works }
    ensures tick { (inputs : Inputs) (input i seconds : ℕ) (works : List Work) (w : Work) → w.arrival ≡ Periodic i seconds → live_in inputs input (works ++ w ∷ []) ≡ live_in inputs input works }
    ensures closed { (inputs : Inputs) (works : List Work) (w : Work) (key : SessionKey) → w.arrival ≡ SessionClose key → IsOpenOnce key works → live_in inputs key.input (works ++ w ∷ []) + live_of inputs works key ≡ live_in inputs key.input works }
    ensures opened { (inputs : Inputs) (works : List Work) (w : Work) (key : SessionKey) (transport : Transport) → w.arrival ≡ SessionOpen key transport → domains_of key works ≡ []
        → live_in inputs key.input (works ++ w ∷ []) ≡ live_in inputs key.input works }
    ensures other { (inputs : Inputs) (input : ℕ) (works : List Work) (w : Work) → input_of w.arrival ≢ input → live_in inputs input (works ++ w ∷ []) ≡ live_in inputs input works }
{}

/// In arrivals in order no more snapshots are live, or in use before a set, than were opened before; and these are some of all
/// that the run opens. So where a set opens one, fewer are in use than the run has sessions and domains with a decoded set
/// and template records: as many slots are enough.
pub fn no_more_are_in_use_than_were_opened()
    ensures live { (inputs : Inputs) (input : ℕ) (works : List Work) → are_in_order (map (λ v. v.arrival) works) ≡ true → live_in inputs input works ≤ opens inputs works }
    ensures before { (inputs : Inputs) (before after : List Work) (w : Work) (n : ℕ) → are_in_order (map (λ v. v.arrival) (before ++ w ∷ [])) ≡ true → in_use inputs (before ++ w ∷ after) (length before) n ≤ opens inputs (before ++ first_sets n w ∷ []) }
    ensures some { (inputs : Inputs) (before after : List Work) (w : Work) (n : ℕ) → opens inputs (before ++ first_sets n w ∷ []) ≤ opens inputs (before ++ w ∷ after) }
    ensures enough { (inputs : Inputs) (before after : List Work) (w : Work) (n : ℕ) → are_in_order (map (λ v. v.arrival) (before ++ w ∷ [])) ≡ true
        → opens inputs (before ++ first_sets n w ∷ []) < opens inputs (before ++ first_sets (1 + n) w ∷ [])
        → in_use inputs (before ++ w ∷ after) (length before) n < length (pairs (before ++ w ∷ after)) + touches_taken inputs (before ++ w ∷ after) }
{}
