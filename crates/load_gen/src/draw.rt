// The octets that are drawn from a state.
ghost use Rattle.std.specs.Prelude.{◌≡◌, length};
ghost use Rattle.load_spec.specs.Draws.{draws, next_state, octet_in, state_after};

/// The state that a draw leaves.
#[inline(always)]
#[tactic(auto, unfolding(load_spec::specs::Draws::next_state))]
fn next_state(state: u64) -> u64
    ensures { result ≡ next_state state }
{
    state
        .wrapping_mul(6364136223846793005)
        .wrapping_add(1442695040888963407)
}

/// The octet that a draw gives, by the state that it leaves.
#[inline(always)]
#[tactic(auto, unfolding(load_spec::specs::Draws::octet_in))]
fn octet_in(state: u64) -> u8
    ensures { result ≡ octet_in state }
{
    ((state >> 33) % 256) as u8
}

/// Draws all octets of a slice, and answers the state that is left.
#[inline]
pub fn draw_all(state: u64, octets: &mut [u8]) -> u64
    ensures drawn { octets.new ≡ draws (length octets.old) state }
    ensures state { result ≡ state_after (length octets.old) state }
{
    let mut left = state;
    for octet in octets.iter_mut() {
        left = next_state(left);
        *octet = octet_in(left);
    }
    left
}
