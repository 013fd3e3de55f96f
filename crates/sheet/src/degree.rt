ghost use Rattle.table.specs.Sheets.{sheet_of};
ghost use Rattle.rows.specs.Stored.{at};
ghost use Rattle.unification.specs.Tables.{gathered};
ghost use Rattle.std.specs.Prelude.{◌≡◌, length};

use scale::Scale;
use table::{Numbers, Table};
use vocabulary::Vocabulary;

/// The meet over the composed rows of how much the word of each is alike to that of the row that `classes` gives it.
pub fn gather<V: Vocabulary>(vocabulary: &V, table: &Table, classes: &Numbers) -> V::Degree
    ensures { result ≡ gathered V.Degree.Scale.operations (V.Vocabulary.model vocabulary.now) (sheet_of table.now.rows table.now.equations) (at classes.now.of) (length (sheet_of table.now.rows table.now.equations).rows) }
{
    let mut degree = V::Degree::top();
    // a row is asked for by its number
    for p in 0..table.row_count() {
        if let Some((f, g)) = table.words_at(classes, p) {
            degree = vocabulary.likeness(f, g).meet(degree);
        }
    }
    degree
}
