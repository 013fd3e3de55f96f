ghost use Rattle.std.specs.Prelude.{min, drop, length, take, ◌≡◌};
ghost use Rattle.layers.specs.Dialects.{spoken};
ghost use Rattle.layers.specs.Floors.{floored};
ghost use Rattle.layers.specs.Tables.{tabled as dialect_tabled};
ghost use Rattle.sheet.specs.Promises.{Promised};
ghost use Rattle.sheet.specs.Runs.{Replayed};
ghost use Rattle.table.specs.Sheets.{sheet_of};
ghost use Rattle.tree.specs.Paths.{tree_words};
ghost use Rattle.tree.specs.Tables.{tabled as tree_tabled};

use layers::{Dialect, Floor};
use scale::Scale;
use sheet::{Answer, Call, Sheet, SheetFault, replay};
use tree::Tree;
use vocabulary::Lexicon;

/// Carries out the calls on a fresh sheet over a dialect over a floor over a family tree.
pub fn replay_stack<'a, S: Scale, L: Lexicon>(
    words: &'a Dialect<Floor<Tree<S>>>,
    calls: &[Call<'_, '_, L>],
    outcomes: &mut [Result<Answer<S>, SheetFault>],
) -> Sheet<'a, Dialect<Floor<Tree<S>>>>
    ensures run { Replayed L.Lexicon.spellings S.Scale.operations
        (spoken S.Scale.operations (dialect_tabled words.now.table) (floored S.Scale.operations words.now.below.degree (tree_words S.Scale.operations (tree_tabled words.now.below.below.table))))
        (take (min (length calls.now) (length outcomes.old)) calls.now)
        (take (min (length calls.now) (length outcomes.old)) outcomes.new)
        (sheet_of result.table.rows result.table.equations) }
    ensures rest { drop (min (length calls.now) (length outcomes.old)) outcomes.new
        ≡ drop (min (length calls.now) (length outcomes.old)) outcomes.old }
    ensures promise { Promised S.Scale.operations
        (spoken S.Scale.operations (dialect_tabled words.now.table) (floored S.Scale.operations words.now.below.degree (tree_words S.Scale.operations (tree_tabled words.now.below.below.table))))
        (sheet_of result.table.rows result.table.equations) }
{
    replay(words, calls, outcomes)
}
