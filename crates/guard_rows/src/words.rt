//! What a guard says for each choice of the values of a few nodes, as the bits of a word.

ghost use Rattle.std.specs.Prelude.{◌≡◌, ℕ, ◌<◌, ◌≤◌, Bool, length, slice_index, All, IfSome};
ghost use Rattle.std.specs.Int.{bit_at};
ghost use Rattle.prs_core.specs.Moves.{high, literal_holds, term_holds};
ghost use Rattle.guard_rows.specs.Places.{as_bit, index_of, IsWord};

use prs_core::{Guard, Literal, State, Term};

/// How many nodes a row reads at most, so that all choices of their values are the bits of a word.
pub(crate) const MOST: usize = 6;

/// For each of these nodes the word whose bits are its values.
static VALUES: [u64; 6] = [
    0xaaaa_aaaa_aaaa_aaaa,
    0xcccc_cccc_cccc_cccc,
    0xf0f0_f0f0_f0f0_f0f0,
    0xff00_ff00_ff00_ff00,
    0xffff_0000_ffff_0000,
    0xffff_ffff_0000_0000,
];

/// The first place of the node in the list.
fn place_in(inputs: &[u32], node: u32) -> Option<usize>
    ensures within { IfSome result (λ p. p < length inputs.now) }
    ensures place { IfSome result (λ p. slice_index inputs.now p ≡ node) }
{
    for place in 0..inputs.len() {
        if inputs[place] == node {
            return Some(place);
        }
    }
    None
}

/// What the literal says, where its node is one of these.
fn literal_word(inputs: &[u32], literal: &Literal) -> Option<u64>
    requires { length inputs.now ≤ 6 }
    ensures { IfSome result (λ w. (v : ℕ → Bool) →
        bit_at w (index_of v inputs.now) ≡ as_bit (literal_holds v literal.now)) }
{
    let place = place_in(inputs, literal.node)?;
    let values = VALUES[place];
    Some(if literal.high { values } else { !values })
}

/// What the term says, where its nodes are among these.
fn term_word(inputs: &[u32], term: &Term) -> Option<u64>
    requires { length inputs.now ≤ 6 }
    ensures { IfSome result (λ w. (v : ℕ → Bool) →
        bit_at w (index_of v inputs.now) ≡ as_bit (term_holds v term.now)) }
{
    let mut word = u64::MAX;
    for literal in term.literals() {
        word &= literal_word(inputs, literal)?;
    }
    Some(word)
}

/// What the guard says, where its nodes are among these.
pub(crate) fn guard_word(inputs: &[u32], guard: &Guard) -> Option<u64>
    requires { length inputs.now ≤ 6 }
    ensures { IfSome result (λ w. IsWord inputs.now guard.now w) }
{
    let mut word = 0;
    for term in guard.terms() {
        word |= term_word(inputs, term)?;
    }
    Some(word)
}

/// The index of what is so in the state.
pub(crate) fn index_now(inputs: &[u32], state: &State) -> u32
    requires few { length inputs.now ≤ 6 }
    requires within { All (λ n. n < length state.now) inputs.now }
    ensures { result ≡ index_of (high state.now) inputs.now }
{
    let mut index = 0;
    for place in (0..inputs.len()).rev() {
        index = 2 * index + u32::from(state.is_high(inputs[place]));
    }
    index
}
