ghost use Rattle.std.specs.Prelude.{min, drop, length, take, ◌≡◌};
ghost use Rattle.book.specs.Likeness.{words_of};
ghost use Rattle.sheet.specs.Promises.{Promised};
ghost use Rattle.sheet.specs.Runs.{Replayed};
ghost use Rattle.table.specs.Sheets.{sheet_of};

use book::Book;
use scale::Scale;
use sheet::{Answer, Call, Sheet, SheetFault, replay};
use vocabulary::Lexicon;

/// Carries out the calls on a fresh sheet over a book.
pub fn replay_book<'a, S: Scale, L: Lexicon>(
    book: &'a Book<'a, S>,
    calls: &[Call<'_, '_, L>],
    outcomes: &mut [Result<Answer<S>, SheetFault>],
) -> Sheet<'a, Book<'a, S>>
    ensures run { Replayed L.Lexicon.spellings S.Scale.operations (words_of S.Scale.operations book.now.layout.bytes.now)
        (take (min (length calls.now) (length outcomes.old)) calls.now)
        (take (min (length calls.now) (length outcomes.old)) outcomes.new)
        (sheet_of result.table.rows result.table.equations) }
    ensures rest { drop (min (length calls.now) (length outcomes.old)) outcomes.new
        ≡ drop (min (length calls.now) (length outcomes.old)) outcomes.old }
    ensures promise { Promised S.Scale.operations (words_of S.Scale.operations book.now.layout.bytes.now) (sheet_of result.table.rows result.table.equations) }
{
    replay(book, calls, outcomes)
}
