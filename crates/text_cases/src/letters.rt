ghost use Rattle.text_cases.specs.Spelled.{lawful};
ghost use Rattle.text_cases.specs.Letters.{letters};

use vocabulary::Lexicon;

/// The spellings, each at the number of its word.
const LETTERS: &[u8] = b"abcdef";

/// A lexicon of six words, numbered 0 to 5 and spelled `a` to `f`.
pub struct Letters;

impl Lexicon for Letters {
    ghost spellings = { λ _. letters };

    ghost lawful = { λ _. lawful };

    fn spelling(&self, word: u16) -> Option<&[u8]> {
        let at = usize::from(word);
        LETTERS.get(at..at + 1)
    }

    fn word(&self, spelling: &[u8]) -> Option<u16> {
        match spelling {
            [letter @ b'a'..=b'f'] => Some(u16::from(letter - b'a')),
            _ => None,
        }
    }
}
