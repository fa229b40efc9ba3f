//! The words that a seed gives, and the values that are made of them.

ghost use Rattle.std.specs.Prelude.{◌≡◌, ◌≤◌, ◌%◌};
ghost use Rattle.rand_pcg.specs.Pcg.{pcg32};
ghost use Rattle.program_maker.specs.Drawn.{drawn_after, drawn_values};

use rand_core::utils::NextWord;
use rand_pcg::Lcg64Xsh32;

/// The stream of the generator that all words come from.
const STREAM: u64 = 54;

/// The generator before the first word of the seed.
pub(crate) fn words_of(seed: u64) -> Lcg64Xsh32
    ensures { result ≡ drawn_after seed 0 }
{
    Lcg64Xsh32::new(seed, STREAM)
}

/// The lowest byte of the next word.
fn next_value(words: &mut Lcg64Xsh32) -> u64
    ensures value { result ≡ (pcg32 words.old).0 % 256 }
    ensures next { words.new ≡ (pcg32 words.old).1 }
{
    u64::from(words.next_word() % 256)
}

/// The four values for the input `c0` of the program of `grow_text`, each below 256: the lowest bytes of the seed's
/// four words after those of the stages.
pub fn grow_values(seed: u64, stages: u32) -> [u64; 4]
    requires some { 1 ≤ stages }
    requires most { stages ≤ 400 }
    ensures { result ≡ drawn_values seed stages }
{
    let mut words = words_of(seed);
    words.advance(u64::from(stages));
    [
        next_value(&mut words),
        next_value(&mut words),
        next_value(&mut words),
        next_value(&mut words),
    ]
}
