ghost use Rattle.std.specs.Prelude.{◌≡◌, ℕ, List, Option, MatchOption};
ghost use Rattle.std.specs.Option.{option_map};
ghost use Rattle.vocabulary.specs.Spellings.{IsLexicon, Spells};

/// How words are spelled, with the laws of a lexicon.
pub trait Lexicon {
    ghost spellings: { Self → ℕ → Option (List ℕ) };

    /// The spelling of the word, if it has one.
    fn spelling(&self, word: u16) -> Option<&[u8]>
        ensures { option_map (λ x. x.now) result ≡ spellings self.now word };

    /// The word that is spelled so, if there is one.
    fn word(&self, spelling: &[u8]) -> Option<u16>
        ensures { MatchOption result
            ((w : ℕ) → Spells (spellings self.now) w spelling.now → ⊥)
            (λ w. Spells (spellings self.now) w spelling.now) };

    ghost lawful: { (lexicon : Self) → IsLexicon (spellings lexicon) };
}
