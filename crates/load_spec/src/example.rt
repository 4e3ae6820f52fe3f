// Example draws and messages.
ghost use Rattle.std.specs.Prelude.{◌≡◌, ◌^◌, ◌-◌, [], ◌∷◌, ◌*◌, take};
ghost use Rattle.arrival_spec.specs.declared.event.Scripted.TheVariants.{Opened, Bytes, Closed};
ghost use Rattle.load_spec.specs.Draws.{draws, state_after};
ghost use Rattle.load_spec.specs.Load.{draws_before, load_events, load_message, message_drawn, records_size_at};
ghost use Rattle.load_spec.specs.Examples.{fifth_of_one, first_of_greatest, first_of_one, second_of_one, thousand_and_first_of_one};

/// What is drawn from the states 0, 1 and 2^64 - 1.
#[tactic(auto, unfolding(crate::specs::Draws::next_state, crate::specs::Draws::octet_in))]
pub fn the_octets_of_a_state_are_these()
    ensures zero { draws 5 0 ≡ 191 ∷ 8 ∷ 17 ∷ 116 ∷ 109 ∷ [] }
    ensures one { draws 5 1 ≡ 214 ∷ 89 ∷ 204 ∷ 230 ∷ 90 ∷ [] }
    ensures greatest { draws 5 (2 ^ 64 - 1) ≡ 168 ∷ 183 ∷ 85 ∷ 2 ∷ 128 ∷ [] }
    ensures states { (state_after 1 1 ≡ 7806831264735756412) × (state_after 2 1 ≡ 9396908728118811419) }
{}

/// All events of one message and of two, and the first message of another number.
#[tactic(auto, unfolding(crate::specs::Draws::next_state, crate::specs::Draws::octet_in))]
pub fn the_first_events_are_these()
    ensures one { load_events 1 1 ≡ Opened 0 ∷ Bytes 0 first_of_one ∷ Closed 0 ∷ [] }
    ensures two { load_events 1 2 ≡ Opened 0 ∷ Bytes 0 first_of_one ∷ Bytes 0 second_of_one ∷ Closed 0 ∷ [] }
    ensures greatest { load_message (2 ^ 64 - 1) 0 ≡ first_of_greatest }
{}

/// Records have 25 octets or 33, by the template. Message 4 is the second one of domain 1, and has no template; message
/// 1000 has the other one, and follows on 100,000 draws.
#[tactic(auto, unfolding(crate::specs::Draws::next_state, crate::specs::Draws::octet_in))]
pub fn templates_come_every_250_messages_of_a_domain()
    ensures sizes { (records_size_at 249 ≡ 4 * 25) × (records_size_at 250 ≡ 4 * 33) × (records_size_at 500 ≡ 4 * 25) }
    ensures draws { draws_before 1000 ≡ 100000 }
    ensures fifth { load_message 1 4 ≡ fifth_of_one }
    ensures other { load_message 1 1000 ≡ thousand_and_first_of_one }
{}

/// The first octets of the last message that can be: its length and Export Time, its Sequence Number, and domain 4.
#[tactic(auto, unfolding(crate::specs::Draws::next_state, crate::specs::Draws::octet_in))]
pub fn the_last_message_is_of_domain_4()
    ensures { take 20 (message_drawn 0 999999) ≡ 0 ∷ 10 ∷ 0 ∷ 152 ∷ 0 ∷ 15 ∷ 70 ∷ 39 ∷ 0 ∷ 15 ∷ 66 ∷ 60 ∷ 0 ∷ 0 ∷ 0 ∷ 4 ∷ 1 ∷ 0 ∷ 0 ∷ 136 ∷ [] }
{}
