// Laws of draws.
ghost use Rattle.std.specs.Prelude.{◌≡◌, ◌+◌, ◌++◌, ℕ, length};
ghost use Rattle.load_spec.specs.Draws.{draws, state_after};

/// Draws go on where the ones before them ended, and each gives one octet.
pub fn draws_go_on()
    ensures state { (n m x : ℕ) → state_after (n + m) x ≡ state_after m (state_after n x) }
    ensures octets { (n m x : ℕ) → draws (n + m) x ≡ draws n x ++ draws m (state_after n x) }
    ensures one { (n x : ℕ) → length (draws n x) ≡ n }
{}
