ghost use Rattle.account.specs.Words.{arguments_text, head_text, like_text, word_text, words_text};
ghost use Rattle.std.specs.Prelude.{◌≡◌, IfOk, string_bytes};

use crate::degrees::Told;
use crate::names::name;
use std::alloc::{AllocError, Global};
use vocabulary::{Lexicon, Vocabulary};

/// What is told of a number of arguments, if it is known.
fn tell_arguments(heap: Global, arity: Option<u8>) -> Result<String, AllocError>
    ensures { IfOk result (λ s. string_bytes s ≡ arguments_text arity) }
{
    match arity {
        Some(count) => format!(in heap; ", arguments: {count}\n"),
        None => String::from_str(heap, ", no word\n"),
    }
}

/// A vocabulary and how its words are spelled, to be told of.
#[derive_where(Clone, Copy)]
struct Telling<'a, V, L> {
    words: &'a V,
    lexicon: &'a L,
}

impl<D: Told, V: Vocabulary<Degree = D>, L: Lexicon> Telling<'_, V, L> {
    /// The line that names `f` and says how many arguments it takes.
    fn head_line(&self, heap: Global, f: u16) -> Result<String, AllocError>
        ensures { IfOk result (λ s. string_bytes s ≡ head_text (V.Vocabulary.model self.now.words.now) (L.Lexicon.spellings self.now.lexicon.now) f) }
    {
        let word = name(heap, self.lexicon, f)?;
        let arguments = tell_arguments(heap, self.words.arity(f))?;
        format!(in heap; "{word}{arguments}")
    }

    /// The line that says how much `f` is alike to `g`; empty where they are not alike, or the same word.
    fn like_line(&self, heap: Global, f: u16, g: u16) -> Result<String, AllocError>
        ensures { IfOk result (λ s. string_bytes s ≡ like_text D.Scale.operations D.Told.told (V.Vocabulary.model self.now.words.now) (L.Lexicon.spellings self.now.lexicon.now) f g) }
    {
        let degree = self.words.likeness(f, g);
        if f == g || degree == D::bottom() {
            return Ok(String::new(heap));
        }
        let other = name(heap, self.lexicon, g)?;
        format!(in heap; "  alike to {other} at {degree}\n")
    }

    /// The lines about `f`: its own, then one for each word that it is alike to.
    fn word_lines(&self, heap: Global, f: u16) -> Result<String, AllocError>
        ensures { IfOk result (λ s. string_bytes s ≡ word_text D.Scale.operations D.Told.told (V.Vocabulary.model self.now.words.now) (L.Lexicon.spellings self.now.lexicon.now) f) }
    {
        let mut text = self.head_line(heap, f)?;
        for g in 0..self.words.count() {
            let more = self.like_line(heap, f, g)?;
            text.push_str(more.as_str())?;
        }
        Ok(text)
    }
}

/// All words by rising number, each with its number of arguments and the words that it is alike to.
pub fn account<D: Told, V: Vocabulary<Degree = D>, L: Lexicon>(
    heap: Global,
    words: &V,
    lexicon: &L,
) -> Result<String, AllocError>
    ensures { IfOk result (λ s. string_bytes s ≡ words_text D.Scale.operations D.Told.told (V.Vocabulary.model words.now) (L.Lexicon.spellings lexicon.now)) }
{
    let telling = Telling { words, lexicon };
    let mut text = String::new(heap);
    for f in 0..words.count() {
        let more = telling.word_lines(heap, f)?;
        text.push_str(more.as_str())?;
    }
    Ok(text)
}
