ghost use Rattle.layers.specs.Dialects.{IsDialect, spoken};
ghost use Rattle.layers.specs.Floors.{floored};
ghost use Rattle.layers.specs.Tables.{tabled as dialect_tabled};
ghost use Rattle.stack.specs.Stacks.{Refused, stack_words};
ghost use Rattle.stack.specs.declared.causes.StackFault.{StackFault};
ghost use Rattle.std.specs.Prelude.{◌≡◌, length, IfOk, Err, MatchResult, OnOk};
ghost use Rattle.tree.specs.Families.{IsTree};
ghost use Rattle.tree.specs.Paths.{tree_words};
ghost use Rattle.tree.specs.Tables.{tabled as tree_tabled};
ghost use Rattle.vocabulary.specs.Words.{IsVocabulary};

use crate::causes::StackFault;
use layers::{Dialect, Floor, check_dialect};
use scale::Scale;
use tree::{Tree, check_tree};

/// A dialect over a floor over a family tree.
pub fn tree_stack<S: Scale>(
    arities: &[u8],
    parents: &[u8],
    codes: &[u16],
    floor: S,
    entries: &[u16],
) -> Result<Dialect<Floor<Tree<S>>>, StackFault>
    ensures verdict { MatchResult result
        (λ _. IsTree S.Scale.operations arities.now parents.now codes.now × IsDialect (length arities.now) entries.now)
        (Refused S.Scale.operations arities.now parents.now codes.now entries.now) }
    ensures only { (f : StackFault) → Refused S.Scale.operations arities.now parents.now codes.now entries.now f → result ≡ Err f }
    ensures words { IfOk result (λ d.
        spoken S.Scale.operations (dialect_tabled d.table) (floored S.Scale.operations d.below.degree (tree_words S.Scale.operations (tree_tabled d.below.below.table)))
        ≡ stack_words S.Scale.operations arities.now parents.now codes.now floor entries.now) }
    ensures laws { OnOk result (IsVocabulary S.Scale.operations
        (stack_words S.Scale.operations arities.now parents.now codes.now floor entries.now)) }
{
    check_tree::<S>(arities, parents, codes)?;
    let floor = Floor::new(Tree::new(arities, parents, codes), floor);
    check_dialect(&floor, entries)?;
    Ok(Dialect::new(floor, entries))
}
