ghost use Rattle.lists.specs.Entries.{entries};
ghost use Rattle.tree.specs.Families.{IsFamily};
ghost use Rattle.tree.specs.Words.{words_family};

use crate::word::Word;
use lists::List;
use vocabulary::MOST_WORDS;

/// The words of a family tree: arities of at most 6, and parents that are no higher and of the same arity.
#[derive(Drop)]
pub(crate) struct Table {
    pub(crate) words: List<Word, MOST_WORDS>,
    ghost family: { IsFamily (words_family (entries words)) },
}
