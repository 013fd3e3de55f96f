ghost use Rattle.book.specs.Verdicts.{Verdict};
ghost use Rattle.book.specs.declared.causes.BookFault.{BookFault};
ghost use Rattle.layout.specs.declared.kind.Kind.{Kind};
ghost use Rattle.report.specs.Floors.{above_accepted, above_report, floor_text, left_text, no_degree_text};
ghost use Rattle.report.specs.Told.{Tells};
ghost use Rattle.std.specs.Prelude.{◌≡◌, is_some, IfOk, string_bytes, Result};

use crate::books::checked;
use crate::told::Untold;
use account::{Told, account};
use book::{Kind, LinesBook, MarksBook};
use fault::Cause;
use layers::Floor;
use scale::DegreeFault;
use std::alloc::{AllocError, Global};
use vocabulary::{Lexicon, Vocabulary};

/// What is told of a floor that is no degree.
fn no_degree(heap: Global, code: u16) -> Result<String, AllocError>
    ensures { IfOk result (λ s. string_bytes s ≡ no_degree_text code) }
{
    let line = DegreeFault::NoDegree(code).fault();
    format!(in heap; "{line}\nThe floor {code} is no mark: marks go from 0 to 1000.\n")
}

/// What is left of a vocabulary above a floor.
fn left<D: Told, V: Vocabulary<Degree = D> + Drop, L: Lexicon>(
    heap: Global,
    words: V,
    lexicon: &L,
    degree: D,
) -> Result<String, AllocError>
    ensures { IfOk result (λ s. string_bytes s ≡ left_text D.Scale.operations D.Told.told (V.Vocabulary.model words) (L.Lexicon.spellings lexicon.now) degree) }
{
    let floor = Floor::new(words, degree);
    let left = account(heap, &floor, lexicon)?;
    format!(in heap; "Words alike at {degree} or more:\n{left}")
}

/// What is told of a vocabulary above the floor with this code.
fn floor_report<D: Told, V: Vocabulary<Degree = D> + Drop, L: Lexicon>(
    heap: Global,
    words: V,
    lexicon: &L,
    code: u16,
) -> Result<String, Untold>
    ensures { Tells (is_some (D.Scale.operations.decoded code))
        (floor_text D.Scale.operations D.Told.told (V.Vocabulary.model words) (L.Lexicon.spellings lexicon.now) code (D.Scale.operations.decoded code)) result }
{
    let degree = D::from_code(code).try_ok_or_else(|| Ok(Untold::Refused(no_degree(heap, code)?)))?;
    Ok(left(heap, words, lexicon, degree)?)
}

/// What is told of what the floor with this code leaves of a book that is offered.
pub fn report_above(heap: Global, bytes: &[u8], code: u16) -> Result<String, Untold>
    ensures { (v : Result Kind BookFault) → Verdict bytes.now v →
        Tells (above_accepted code v) (above_report bytes.now code v) result }
{
    match checked(heap, bytes)? {
        Kind::Marks => {
            let book = MarksBook::new(bytes);
            floor_report(heap, book, &book, code)
        }
        Kind::Lines => {
            let book = LinesBook::new(bytes);
            floor_report(heap, book, &book, code)
        }
    }
}
