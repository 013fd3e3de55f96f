ghost use Rattle.std.specs.Prelude.{◌≡◌, ◌<◌, length, Result, MatchResult};
ghost use Rattle.tree.specs.Families.{Even, Fit, family};
ghost use Rattle.tree.specs.Verdicts.{Unfit, Verdict};
ghost use Rattle.tree.specs.declared.causes.TreeFault.{TreeFault};

use crate::causes::{Flaw, TreeFault};
use lists::fits;
use scale::Scale;
use vocabulary::MOST_ARGUMENTS;

/// Whether the word is fit: its arity, then its parent, then its code.
fn check_word<S: Scale>(
    arities: &[u8],
    parents: &[u8],
    codes: &[u16],
    word: usize,
) -> Result<(), Flaw>
    requires even { Even arities.now parents.now codes.now }
    requires within { word < length arities.now }
    ensures { MatchResult result
        (λ _. Fit S.Scale.operations (family arities.now parents.now codes.now) word)
        (Unfit S.Scale.operations (family arities.now parents.now codes.now) word) }
{
    if arities[word] > MOST_ARGUMENTS {
        return Err(Flaw::Arity);
    }
    let parent = parents[word] as usize;
    if parent > word || arities[parent] != arities[word] {
        return Err(Flaw::Parent);
    }
    S::from_code(codes[word]).ok_or(Flaw::Code)?;
    Ok(())
}

/// Whether three lists, of arities, of parents and of codes of degrees, are a family tree.
pub fn check_tree<S: Scale>(arities: &[u8], parents: &[u8], codes: &[u16]) -> Result<(), TreeFault>
    ensures verdict { Verdict S.Scale.operations arities.now parents.now codes.now result }
    ensures only { (v : Result (Unit {0}) TreeFault) →
        Verdict S.Scale.operations arities.now parents.now codes.now v → v ≡ result }
{
    let count = arities.len();
    if parents.len() != count || codes.len() != count {
        return Err(TreeFault::Lengths);
    }
    if !fits(count) {
        return Err(TreeFault::Count(count));
    }
    // By the number, which the fault names: the three lists are the public form, and a parent is a number in them.
    for word in 0..count {
        check_word::<S>(arities, parents, codes, word).map_err(|flaw| TreeFault::Word(
            word as u8, flaw,
        ))?;
    }
    Ok(())
}
