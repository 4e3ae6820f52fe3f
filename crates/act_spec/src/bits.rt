// Laws of single bits.
ghost use Rattle.std.specs.Prelude.{◌≡◌, ◌++◌, List, ℕ, drop, length, map, take};
ghost use Rattle.config_spec.specs.Texts.{masked};
ghost use Rattle.act_spec.specs.Bits.{bits_of, in_place};

/// Of octets that are cut to a number of bits these bits stay, and all behind them are 0. Where the first bits are put in
/// place of others, these are the other's, and all behind them stay.
pub fn bits_are_cut_and_put_in_place()
    ensures cut { (n : ℕ) (octets : List ℕ) → bits_of (masked n octets) ≡ take n (bits_of octets) ++ drop n (map (λ b. 0) (bits_of octets)) }
    ensures put { (n : ℕ) (first octets : List ℕ) → length first ≡ length octets → bits_of (in_place n first octets) ≡ take n (bits_of first) ++ drop n (bits_of octets) }
{}
