//! What rails say.

ghost use Rattle.std.specs.Prelude.{◌≡◌, ◌<◌, ◌≤◌, ◌*◌, ◌^◌, ◌-◌, ℕ, length, All, IfSome};
ghost use Rattle.prs_core.specs.Moves.{high, rail_value_of, neutral};

use crate::state::State;

/// The number on the rails, the lowest bit first, or None where some bit hasn't exactly one rail high.
pub fn rail_value(state: &State, rails: &[u32]) -> Option<u64>
    requires pairs { (bits : ℕ) × (length rails.now ≡ 2 * bits) }
    requires most { length rails.now ≤ 128 }
    requires within { All (λ rail. rail < length state.now) rails.now }
    ensures value { result ≡ rail_value_of (high state.now) rails.now }
    ensures small { IfSome result (λ n. n < 2 ^ 64) }
{
    let mut value = 0u64;
    for bit in (0..rails.len() / 2).rev() {
        let is_one = state.is_high(rails[2 * bit]);
        if is_one == state.is_high(rails[2 * bit + 1]) {
            return None;
        }
        value = 2 * value + u64::from(is_one);
    }
    Some(value)
}

/// Whether all the rails are low.
pub fn all_neutral(state: &State, rails: &[u32]) -> bool
    requires pairs { (bits : ℕ) × (length rails.now ≡ 2 * bits) }
    requires most { length rails.now ≤ 128 }
    requires within { All (λ rail. rail < length state.now) rails.now }
    ensures { result ≡ neutral (high state.now) rails.now }
{
    rails.iter().all(|rail| !state.is_high(*rail))
}
