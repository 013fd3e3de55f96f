ghost use Rattle.book.specs.Likeness.{words_of};
ghost use Rattle.layers.specs.Dialects.{IsDialect};
ghost use Rattle.layers.specs.Verdicts.{Refused as NoDialect};
ghost use Rattle.layers.specs.declared.causes.DialectFault.{DialectFault};
ghost use Rattle.layout.specs.Places.{count_of};
ghost use Rattle.stack.specs.Stacks.{layered};
ghost use Rattle.std.specs.Prelude.{◌≡◌, Err, MatchResult, OnOk};
ghost use Rattle.vocabulary.specs.Words.{IsVocabulary};

use crate::any::layered_likeness;
use book::Book;
use layers::DialectFault;
use scale::Scale;

/// The likeness of two words of a dialect over a floor over a book.
pub fn book_likeness<S: Scale>(
    book: Book<'_, S>,
    floor: S,
    entries: &[u16],
    f: u16,
    g: u16,
) -> Result<S, DialectFault>
    ensures verdict { MatchResult result
        (λ d. IsDialect (count_of book.entry.layout.bytes.now) entries.now
        × (d ≡ (layered S.Scale.operations (words_of S.Scale.operations book.entry.layout.bytes.now) floor entries.now).likeness f g))
        (NoDialect (count_of book.entry.layout.bytes.now) entries.now) }
    ensures only { (v : DialectFault) → NoDialect (count_of book.entry.layout.bytes.now) entries.now v → result ≡ Err v }
    ensures laws { OnOk result (IsVocabulary S.Scale.operations
        (layered S.Scale.operations (words_of S.Scale.operations book.entry.layout.bytes.now) floor entries.now)) }
{
    layered_likeness(book, floor, entries, f, g)
}
