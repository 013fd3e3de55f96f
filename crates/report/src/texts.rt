ghost use Rattle.book.specs.Verdicts.{Verdict};
ghost use Rattle.book.specs.declared.causes.BookFault.{BookFault};
ghost use Rattle.layout.specs.declared.kind.Kind.{Kind};
ghost use Rattle.report.specs.Texts.{TextTold, arity_list, caret_text, text_refused, text_report};
ghost use Rattle.report.specs.Told.{Tells};
ghost use Rattle.std.specs.Prelude.{◌≡◌, is_ok, IfOk, string_bytes, Result};
ghost use Rattle.text.specs.Verdicts.{Verdict as TextVerdict};
ghost use Rattle.text.specs.declared.causes.TextFault.{TextFault};

use crate::books::checked;
use crate::told::Untold;
use book::{Kind, LinesBook, MarksBook};
use fault::Layer;
use std::alloc::{AllocError, Global};
use text::{TextFault, check_text};
use vocabulary::{Lexicon, Vocabulary, arities};

/// A caret under a place.
fn caret(heap: Global, place: u32) -> Result<String, AllocError>
    ensures { IfOk result (λ s. string_bytes s ≡ caret_text place) }
{
    let mut line = " ".repeat(heap, place as usize)?;
    line.push_str("^")?;
    Ok(line)
}

/// What is told of a text that is refused: the line with its numbers, the text, a caret under the place, a sentence.
fn refused_text(heap: Global, text: &str, fault: TextFault) -> Result<String, AllocError>
    ensures { IfOk result (λ s. string_bytes s ≡ text_refused text.now fault) }
{
    let line = fault.fault(Layer::Sentence);
    let under = caret(heap, line.place)?;
    format!(in heap; "{line}\n{text}\n{under}\n{fault}\n")
}

/// What is told of a text by the verdict on it.
fn text_verdict(heap: Global, text: &str, verdict: Result<(), TextFault>) -> Result<String, Untold>
    ensures { Tells (is_ok verdict) (text_report text.now verdict) result }
{
    verdict.try_map_err(|fault| Ok(Untold::Refused(refused_text(heap, text, fault)?)))?;
    let told = format!(in heap;
        "{text}\nThis is the text of one term over the words of the book.\n"
    )?;
    Ok(told)
}

/// What is told of a text over the words of a vocabulary.
fn text_over<V: Vocabulary, L: Lexicon>(
    heap: Global,
    words: &V,
    lexicon: &L,
    text: &str,
) -> Result<String, Untold>
    ensures { (w : Result (Unit {0}) TextFault) →
        TextVerdict (L.Lexicon.spellings lexicon.now) (arity_list (V.Vocabulary.model words.now).count (V.Vocabulary.model words.now).arity) text.now w →
        Tells (is_ok w) (text_report text.now w) result }
{
    let list = arities(words);
    let count = words.count();
    let verdict = check_text(text.as_bytes(), lexicon, &list[0..count as usize]);
    text_verdict(heap, text, verdict)
}

/// What is told of a text over the words of a book that is offered.
pub fn report_text(heap: Global, bytes: &[u8], text: &str) -> Result<String, Untold>
    ensures { (v : Result Kind BookFault) → Verdict bytes.now v → TextTold bytes.now text.now v result }
{
    match checked(heap, bytes)? {
        Kind::Marks => {
            let book = MarksBook::new(bytes);
            text_over(heap, &book, &book, text)
        }
        Kind::Lines => {
            let book = LinesBook::new(bytes);
            text_over(heap, &book, &book, text)
        }
    }
}
