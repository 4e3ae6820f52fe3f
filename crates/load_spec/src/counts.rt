// What a run over generated events counts.
ghost use Rattle.std.specs.Prelude.{[], ◌∷◌, ℕ};
ghost use Rattle.col_base.specs.declared.base.Transport.TheVariants.{File, Tcp};
ghost use Rattle.run_spec.specs.Examples.{all_over};
ghost use Rattle.count_spec.specs.Run.{AreCounts};
ghost use Rattle.count_spec.specs.Examples.{nothing_counted};
ghost use Rattle.load_spec.specs.Load.{load_events};

/// Nine messages of any number are taken, with four records each; none is missing or out of order, and no template is
/// defined anew.
pub fn generated_messages_are_counted()
    ensures file { (number : ℕ) → AreCounts (all_over File) (load_events number 9 ∷ []) (record nothing_counted { sessions = 1; messages = 9; records = 36 }) }
    ensures tcp { (number : ℕ) → AreCounts (all_over Tcp) (load_events number 9 ∷ []) (record nothing_counted { sessions = 1; messages = 9; records = 36 }) }
{}
