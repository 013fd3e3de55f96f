ghost use Rattle.std.specs.Prelude.{◌≡◌, ℕ, ◌≤◌, List, ◌++◌, length, drop, MatchResult};
ghost use Rattle.std.specs.List.{AllByRecursion};
ghost use Rattle.text.specs.Lookups.{Sure, Told, WordsRefused};
ghost use Rattle.text.specs.Meanings.{Known, Fitting};
ghost use Rattle.text.specs.Occurrences.{words};
ghost use Rattle.text.specs.Phrases.{AllSound, Phrase, Phrases, Sound, bracketed, bytes, count};
ghost use Rattle.text.specs.Tokens.{Ended};
ghost use Rattle.text.specs.declared.causes.TextFault.TheVariants.{UnknownWord, WrongArguments};

use crate::causes::TextFault;
use crate::signature::Signature;
use crate::source::Source;
use crate::token::Token;
use vocabulary::Lexicon;

/// How many arguments the word has that these bytes follow: it passes over the bytes of the arguments, and counts the commas between them.
fn count_arguments(bytes: &[u8]) -> usize
    ensures { (ps : Phrases) (behind : List ℕ) → AllSound ps → Ended behind → bytes.now ≡ bracketed ps ++ behind → result ≡ count ps }
{
    let [b'(', inside @ ..] = bytes else {
        return 0;
    };
    let mut arguments = 1;
    let mut open: usize = 0;
    for byte in inside {
        match *byte {
            b'(' => open += 1,
            b')' if open == 0 => return arguments,
            b')' => open -= 1,
            b',' if open == 0 => arguments += 1,
            _ => {}
        }
    }
    arguments
}

impl Source<'_> {
    /// Whether all words of a text are known, and whether all fit: where not, the refusal of the first that is not known, and of the
    /// first that does not fit. A word that is not known does not fit.
    fn judge_words<L: Lexicon>(
        &self,
        signature: &Signature<L>,
    ) -> (Result<(), TextFault>, Result<(), TextFault>)
        ensures known { (p : Phrase) → Sound p → bytes p ≡ self.now.bytes.now → MatchResult result.0
            (λ _. AllByRecursion (Known (L.Lexicon.spellings signature.now.lexicon.now) signature.now.arities.now) (words 0 p))
            (Told (Known (L.Lexicon.spellings signature.now.lexicon.now) signature.now.arities.now) (words 0 p) UnknownWord) }
        ensures fit { (p : Phrase) → Sound p → bytes p ≡ self.now.bytes.now → MatchResult result.1
            (λ _. AllByRecursion (Sure (L.Lexicon.spellings signature.now.lexicon.now) signature.now.arities.now) (words 0 p))
            (Told (Fitting (L.Lexicon.spellings signature.now.lexicon.now) signature.now.arities.now) (words 0 p) WrongArguments) }
    {
        let mut fit = Ok(());
        let mut at = 0;
        while let Ok((token, end)) = self.lex(at) {
            if let Token::Word(spelling) = token {
                let Some(arity) = signature.arity_of(spelling) else {
                    let refusal = Err(TextFault::WrongArguments(at as u32));
                    return (Err(TextFault::UnknownWord(at as u32)), fit.and(refusal));
                };
                if fit.is_ok() && usize::from(arity) != count_arguments(&self.bytes[end..]) {
                    fit = Err(TextFault::WrongArguments(at as u32));
                }
            }
            at = end;
        }
        (Ok(()), fit)
    }

    /// Refuses the first word that is not known, or else the first that has more or fewer arguments than it takes.
    pub(crate) fn check_words<L: Lexicon>(&self, signature: &Signature<L>) -> Result<(), TextFault>
        ensures { (p : Phrase) → Sound p → bytes p ≡ self.now.bytes.now → MatchResult result
            (λ _. AllByRecursion (Sure (L.Lexicon.spellings signature.now.lexicon.now) signature.now.arities.now) (words 0 p))
            (WordsRefused (L.Lexicon.spellings signature.now.lexicon.now) signature.now.arities.now (words 0 p)) }
    {
        let (known, fit) = self.judge_words(signature);
        // a word that does not fit is told only where all are known
        known.and(fit)
    }
}
