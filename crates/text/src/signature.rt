ghost use Rattle.std.specs.Prelude.{MatchOption};
ghost use Rattle.text.specs.Lookups.{Arity, Lacking};

use vocabulary::Lexicon;

/// The words that a text may have: how they are spelled, and how many arguments each of the vocabulary's takes.
#[derive(Drop)]
pub struct Signature<'a, L> {
    pub lexicon: &'a L,
    pub arities: &'a [u8],
}

impl<L: Lexicon> Signature<'_, L> {
    /// How many arguments the word takes that is spelled so, if the lexicon and the vocabulary have it.
    pub fn arity_of(&self, spelling: &[u8]) -> Option<u8>
        ensures { MatchOption result
            (Lacking (L.Lexicon.spellings self.now.lexicon.now) self.now.arities.now spelling.now)
            (Arity (L.Lexicon.spellings self.now.lexicon.now) self.now.arities.now spelling.now) }
    {
        let word = usize::from(self.lexicon.word(spelling)?);
        let arity = self.arities.get(word)?;
        Some(*arity)
    }
}
