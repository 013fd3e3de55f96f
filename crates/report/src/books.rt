ghost use Rattle.account.specs.Words.{words_text};
ghost use Rattle.book.specs.Laws.{Lawful};
ghost use Rattle.book.specs.Likeness.{words_of};
ghost use Rattle.book.specs.Verdicts.{Verdict};
ghost use Rattle.book.specs.declared.causes.BookFault.{BookFault};
ghost use Rattle.layout.specs.Forms.{GoodForm};
ghost use Rattle.layout.specs.Places.{count_of, spelling_of};
ghost use Rattle.layout.specs.declared.kind.Kind.{Kind};
ghost use Rattle.report.specs.Reports.{book_text, refusal_text, report_text, sentence_text};
ghost use Rattle.report.specs.Told.{Checked, Tells};
ghost use Rattle.std.specs.Prelude.{◌≡◌, is_ok, IfOk, Ok, Err, string_bytes, Result};

use crate::forms::form_sentence;
use crate::laws::law_sentence;
use crate::told::Untold;
use account::{Told, account};
use book::{Book, BookFault, Kind, check};
use fault::Cause;
use layout::Layout;
use scale::{Lines, Mark};
use std::alloc::{AllocError, Global};
use vocabulary::Vocabulary;

/// What is wrong with a book, in a sentence.
fn sentence(heap: Global, bytes: &[u8], fault: BookFault) -> Result<String, AllocError>
    requires { Verdict bytes.now (Err fault) }
    ensures { IfOk result (λ s. string_bytes s ≡ sentence_text bytes.now fault) }
{
    match fault {
        BookFault::Form(fault) => form_sentence(heap, bytes, fault),
        BookFault::Law(fault) => {
            let layout = Layout::new(bytes);
            match layout.kind() {
                Kind::Marks => law_sentence::<Mark>(heap, &layout, fault),
                Kind::Lines => law_sentence::<Lines>(heap, &layout, fault),
            }
        }
    }
}

/// What is told of a book that is refused.
fn refusal(heap: Global, bytes: &[u8], fault: BookFault) -> Result<String, AllocError>
    requires { Verdict bytes.now (Err fault) }
    ensures { IfOk result (λ s. string_bytes s ≡ refusal_text bytes.now fault) }
{
    let line = fault.fault();
    let sentence = sentence(heap, bytes, fault)?;
    format!(in heap; "{line}\n{sentence}\n")
}

/// The kind of the book in the bytes; where they are refused, what is told of that. Whoever asks goes by the kind to one generic function:
/// no closure can stand for it, since none is generic over the scale.
pub fn checked(heap: Global, bytes: &[u8]) -> Result<Kind, Untold>
    ensures kind { IfOk result (λ k. Verdict bytes.now (Ok k)) }
    ensures told { (v : Result Kind BookFault) → Verdict bytes.now v → Checked bytes.now v result }
{
    check(bytes).try_map_err(|fault| Ok(Untold::Refused(refusal(heap, bytes, fault)?)))
}

/// What is told of a good book.
fn account_of<S: Told>(heap: Global, bytes: &[u8], kind: Kind) -> Result<String, AllocError>
    requires form { GoodForm bytes.now }
    requires lawful { Lawful S.Scale.operations bytes.now }
    ensures { IfOk result (λ s. string_bytes s ≡ book_text kind (count_of bytes.now)
        (words_text S.Scale.operations S.Told.told (words_of S.Scale.operations bytes.now) (spelling_of bytes.now))) }
{
    let book: Book<S> = Book::new(bytes);
    let count = book.count();
    let words = account(heap, &book, &book)?;
    format!(in heap; "A book of {kind}, words: {count}\n{words}")
}

/// What is told of bytes that are offered as a book: an account of the book, or a refusal.
pub fn report_on(heap: Global, bytes: &[u8]) -> Result<String, Untold>
    ensures { (v : Result Kind BookFault) → Verdict bytes.now v → Tells (is_ok v) (report_text bytes.now v) result }
{
    let kind = checked(heap, bytes)?;
    match kind {
        Kind::Marks => Ok(account_of::<Mark>(heap, bytes, kind)?),
        Kind::Lines => Ok(account_of::<Lines>(heap, bytes, kind)?),
    }
}
