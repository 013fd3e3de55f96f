ghost use Rattle.transcript.specs.Asking.{AsksFor};

use script::Line;
use sheet::Call;

/// The call that a line asks for, over a book, with the rows of its fields. A line that asks for nothing becomes a look at the mark,
/// which changes nothing, so that each line has its outcome.
pub fn call_of<'t, 'r, B>(line: Option<Line<'t>>, rows: &'r [u16], book: &'t B) -> Call<'t, 'r, B>
    ensures { AsksFor line.entry rows.now book.now result }
{
    let Some(line) = line else {
        return Call::Mark;
    };
    match line {
        Line::Variable(label) => Call::Variable(label),
        Line::Compose(word, _) => Call::Compose(word, rows),
        Line::Read(text) => Call::Read(text, book),
        Line::Equate(p, q) => Call::Equate(p, q),
        Line::Back(rows, equations) => Call::Back(rows, equations),
        Line::Mark => Call::Mark,
        Line::Degree => Call::Degree,
        Line::Resolve(p) => Call::Resolve(p),
    }
}
