ghost use Rattle.vocabulary.specs.Words.{IsVocabulary, Words, known};
ghost use Rattle.std.specs.Prelude.{◌≡◌};

use scale::Scale;

/// The words that terms are made of, numbered from 0, with the laws of a vocabulary.
pub trait Vocabulary {
    type Degree: Scale;

    ghost model: { Self → Words Self.Degree };

    /// How many words there are, from 1 to 128.
    fn count(&self) -> u16
        ensures { result ≡ (model self.now).count };

    /// How many arguments the word takes, from 0 to 6; nothing for a number that is no word.
    fn arity(&self, word: u16) -> Option<u8>
        ensures { result ≡ known (model self.now).count (model self.now).arity word };

    /// At what degree the two words are alike; bottom where one is no word.
    fn likeness(&self, f: u16, g: u16) -> Self::Degree
        ensures { result ≡ (model self.now).likeness f g };

    ghost lawful: { (words : Self) → IsVocabulary Self.Degree.Scale.operations (model words) };
}
