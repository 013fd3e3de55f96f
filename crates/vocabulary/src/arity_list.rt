ghost use Rattle.std.specs.Prelude.{◌≡◌, ℕ, ◌≤◌, length, slice_index};
ghost use Rattle.fault.specs.Firsts.{Below};

use crate::limits::MOST_WORDS;
use crate::vocabulary::Vocabulary;

/// The arities of all words, each at its number, and 0 behind them.
pub fn arities<V: Vocabulary>(words: &V) -> [u8; MOST_WORDS]
    ensures len { length result ≡ 128 }
    ensures places { Below (V.Vocabulary.model words.now).count (λ f. slice_index result f ≡ (V.Vocabulary.model words.now).arity f) }
    ensures rest { (k : ℕ) → (V.Vocabulary.model words.now).count ≤ k → slice_index result k ≡ 0 }
{
    let mut list = [0; MOST_WORDS];
    // over the words, and not the places: `array::from_fn` was tried, and what its closure answers could not be read in the proof
    for f in 0..words.count() {
        list[f as usize] = words.arity(f).unwrap_or(0);
    }
    list
}
