ghost use Rattle.lists.specs.Entries.{entries};
ghost use Rattle.reading.specs.Reads.{FewEach};
ghost use Rattle.reading.specs.Stacks.{given_to, innermost};
ghost use Rattle.reading.specs.Steps.{Comes, Due, IsDue, IsMade, Made};
ghost use Rattle.std.specs.Prelude.{◌≡◌, ℕ, List as Values, [], ◌∷◌};
ghost use Rattle.table.specs.Sheets.{sheet_of};
ghost use Rattle.table.specs.Uniformity.{IsUniform};
ghost use Rattle.text.specs.Items.{Entry, entry_of};
ghost use Rattle.unification.specs.Sheets.{Sheet};
ghost use Rattle.unification.specs.Terms.{Term};

use crate::causes::NoRoom;
use lists::List;
use table::Table;
use text::{DEEPEST, Item};
use vocabulary::MOST_ARGUMENTS;

/// The most arguments that a word takes, as the size of a list.
const ARGUMENTS: usize = MOST_ARGUMENTS as usize;

/// A word whose arguments are being read: how many it takes, and the rows of those that it has.
#[derive(Clone, Copy)]
pub struct OpenWord {
    pub word: u16,
    pub takes: u8,
    pub rows: List<u16, ARGUMENTS>,
}

/// Up to 31 open words, each an argument of the one before it.
pub type OpenWords = List<OpenWord, DEEPEST>;

impl OpenWord {
    /// The word with no arguments yet.
    pub fn new(word: u16, takes: u8) -> Self
        ensures word { result.word ≡ word }
        ensures takes { result.takes ≡ takes }
        ensures rows { given_to result ≡ [] }
    {
        OpenWord {
            word,
            takes,
            rows: List::new(0),
        }
    }
}

// The clause `uniform` stands in each contract here as the table has it in its own.

/// Gives the row to the innermost open word, composes each word that then has all its arguments, and gives its row to the next. Answers
/// the row of the whole where no word is left open.
fn give(opened: &mut OpenWords, table: &mut Table, row: u16) -> Result<Option<u16>, NoRoom>
    requires { IsMade (innermost opened.old) row (sheet_of table.old.rows table.old.equations) }
    ensures comes { (arities : Values ℕ) (start : Sheet) (t : Term) (es : Values Entry) →
        Made arities start t (innermost opened.old) row (sheet_of table.old.rows table.old.equations) es →
        Comes arities start t result (innermost opened.new) (sheet_of table.new.rows table.new.equations) es }
    ensures uniform { IsUniform table.old.rows table.old.equations table.old.classes → IsUniform table.new.rows table.new.equations table.new.classes }
{
    let mut made = row;
    while let Some(mut word) = opened.pop() {
        word.rows.push(made);
        if word.rows.len() < usize::from(word.takes) {
            opened.push(word);
            return Ok(None);
        }
        made = table.compose(word.word, word.rows.as_slice())?;
    }
    Ok(Some(made))
}

/// Takes the next item: opens a word that has arguments, or gives the item's row. Answers the row of the whole after the last item.
pub fn take(
    opened: &mut OpenWords,
    table: &mut Table,
    item: Item,
    arities: &[u8],
) -> Result<Option<u16>, NoRoom>
    requires few { FewEach arities.now }
    requires due { IsDue arities.now (innermost opened.old) (sheet_of table.old.rows table.old.equations) item }
    ensures comes { (start : Sheet) (t : Term) (es : Values Entry) →
        Due arities.now start t (innermost opened.old) (sheet_of table.old.rows table.old.equations) (entry_of item ∷ es) →
        Comes arities.now start t result (innermost opened.new) (sheet_of table.new.rows table.new.equations) es }
    ensures uniform { IsUniform table.old.rows table.old.equations table.old.classes → IsUniform table.new.rows table.new.equations table.new.classes }
{
    match item {
        Item::Variable(label) => {
            let row = table.variable(label)?;
            give(opened, table, row)
        }
        Item::Word(word) => {
            let takes = arities[usize::from(word)];
            if takes > 0 {
                opened.push(OpenWord::new(word, takes));
                return Ok(None);
            }
            let row = table.compose(word, &[])?;
            give(opened, table, row)
        }
    }
}
