ghost use Rattle.reading.specs.Reads.{FewEach, ReadGives, RowsGive};
ghost use Rattle.reading.specs.declared.causes.ReadFault.{ReadFault};
ghost use Rattle.std.specs.Prelude.{◌≡◌, ℕ, Result};
ghost use Rattle.table.specs.Calls.{KeptOnErr};
ghost use Rattle.table.specs.Sheets.{sheet_of};
ghost use Rattle.table.specs.Uniformity.{IsUniform};
ghost use Rattle.text.specs.Verdicts.{Accepted};
ghost use Rattle.unification.specs.Sheets.{Sheet};

use crate::causes::{NoRoom, ReadFault};
use crate::words::{OpenWord, take};
use lists::List;
use table::Table;
use text::{Source, check_text};
use vocabulary::Lexicon;

// The lexicon and the arities are two parameters, as in the call that is public: the arities are lent as a plain list.

/// Puts the rows of a checked text onto the table, and answers the row of the whole.
fn read_rows<L: Lexicon>(
    table: &mut Table,
    source: &Source,
    lexicon: &L,
    arities: &[u8],
) -> Result<u16, NoRoom>
    requires few { FewEach arities.now }
    requires accepted { Accepted (L.Lexicon.spellings lexicon.now) arities.now source.now.bytes.now }
    ensures rows { (a : Accepted (L.Lexicon.spellings lexicon.now) arities.now source.now.bytes.now) →
        RowsGive (sheet_of table.old.rows table.old.equations) a.term result (sheet_of table.new.rows table.new.equations) }
    ensures uniform { IsUniform table.old.rows table.old.equations table.old.classes → IsUniform table.new.rows table.new.equations table.new.classes }
{
    let mut opened = List::new(OpenWord::new(0, 0));
    let mut at = 0;
    while let Some(next) = source.next_item(lexicon, at) {
        if let Some(row) = take(&mut opened, table, next.item, arities)? {
            return Ok(row);
        }
        at = next.end;
    }
    // a checked text has all its arguments, so the last item has closed every word
    Err(NoRoom)
}

/// Reads the text onto the table, and answers the row of the whole. A refusal changes nothing.
pub fn read_text<L: Lexicon>(
    table: &mut Table,
    text: &[u8],
    lexicon: &L,
    arities: &[u8],
) -> Result<u16, ReadFault>
    requires { FewEach arities.now }
    ensures answer { ReadGives (L.Lexicon.spellings lexicon.now) arities.now (sheet_of table.old.rows table.old.equations) text.now result (sheet_of table.new.rows table.new.equations) }
    ensures kept { KeptOnErr result table.old table.new }
    ensures only { (q : Result ℕ ReadFault) (v : Sheet) → ReadGives (L.Lexicon.spellings lexicon.now) arities.now (sheet_of table.old.rows table.old.equations) text.now q v → (q ≡ result) × (v ≡ sheet_of table.new.rows table.new.equations) }
    ensures uniform { IsUniform table.old.rows table.old.equations table.old.classes → IsUniform table.new.rows table.new.equations table.new.classes }
{
    check_text(text, lexicon, arities)?;
    let source = Source::new(text);
    let before = *table;
    match read_rows(table, &source, lexicon, arities) {
        Ok(row) => Ok(row),
        Err(fault) => {
            *table = before;
            Err(fault.into())
        }
    }
}
