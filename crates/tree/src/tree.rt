ghost use Rattle.std.specs.Prelude.{◌≡◌, ◌<◌, ◌≤◌, length};
ghost use Rattle.lists.specs.Entries.{entries};
ghost use Rattle.tree.specs.Families.{Even, IsTree, family};
ghost use Rattle.tree.specs.Paths.{IsLikeness, like_below, tree_words};
ghost use Rattle.tree.specs.Tables.{tabled};
ghost use Rattle.tree.specs.Words.{words_family};
ghost use Rattle.tree.specs.TreeLaws.{tree_laws};

use crate::table::Table;
use crate::word::Word;
use lists::List;
use scale::{Scale, degree_of};
use vocabulary::{MOST_WORDS, Vocabulary};

/// The words that three lists give, one entry of each to a word.
fn words_of(arities: &[u8], parents: &[u8], codes: &[u16]) -> List<Word, MOST_WORDS>
    requires even { Even arities.now parents.now codes.now }
    requires few { length arities.now ≤ 128 }
    ensures { words_family (entries result) ≡ family arities.now parents.now codes.now }
{
    let mut words = List::new(Word {
        arity: 0,
        parent: 0,
        code: 0,
    });
    // By the index: of two zips, one in the other, the proof does not learn the items.
    for (i, arity) in arities.iter().enumerate() {
        words.push(Word {
            arity: *arity,
            parent: parents[i],
            code: codes[i],
        });
    }
    words
}

/// A family tree: words alike through their common ancestors.
#[derive(Drop)]
pub struct Tree<S: Scale> {
    table: Table,
    /// A degree of the tree's scale, its bottom: the table names none.
    bottom: S,
}

impl<S: Scale> Tree<S> {
    /// The family tree of three lists that were checked, in memory of its own.
    pub fn new(arities: &[u8], parents: &[u8], codes: &[u16]) -> Tree<S>
        requires { IsTree S.Scale.operations arities.now parents.now codes.now }
        ensures words { tabled result.table ≡ family arities.now parents.now codes.now }
        ensures bottom { result.bottom ≡ S.Scale.operations.bottom }
    {
        Tree {
            table: Table {
                words: words_of(arities, parents, codes),
            },
            bottom: S::bottom(),
        }
    }

    /// The likeness of two words: the higher of them climbs until they meet.
    fn climbed(&self, mut f: u16, mut g: u16) -> S
        requires left { f < (tabled self.now.table).count }
        requires right { g < (tabled self.now.table).count }
        ensures { result ≡ like_below S.Scale.operations (tabled self.now.table) (tabled self.now.table).count f g }
    {
        let words = self.table.words.as_slice();
        let apart = S::bottom();
        let mut degree = S::top();
        while f != g {
            let high = f.max(g);
            let word = words[high as usize];
            let parent = word.parent as u16;
            if parent == high {
                return apart;
            }
            degree = degree.meet(degree_of(word.code));
            g = f.min(g);
            f = parent;
        }
        degree
    }
}

impl<S: Scale> Vocabulary for Tree<S> {
    type Degree = S;

    ghost model = { λ t. tree_words S.Scale.operations (tabled t.table) };

    ghost lawful = { λ t. tree_laws S.Scale.operations S.Scale.lawful (tabled t.table) t.table.family };

    fn count(&self) -> u16 {
        self.table.words.len() as u16
    }

    fn arity(&self, word: u16) -> Option<u8> {
        Some(self.table.words.as_slice().get(word as usize)?.arity)
    }

    fn likeness(&self, f: u16, g: u16) -> S
        ensures value { result ≡ (tree_words S.Scale.operations (tabled self.now.table)).likeness f g }
        ensures path { IsLikeness S.Scale.operations (tabled self.now.table) f g result }
        ensures only { (d : S) → IsLikeness S.Scale.operations (tabled self.now.table) f g d → d ≡ result }
    {
        let count = self.count();
        if f >= count || g >= count {
            return S::bottom();
        }
        self.climbed(f, g)
    }
}
