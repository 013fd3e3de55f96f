ghost use Rattle.layers.specs.Dialects.{IsDialect, listed, spoken, word_below};
ghost use Rattle.layers.specs.Tables.{tabled};
ghost use Rattle.layers.specs.Verdicts.{Verdict};
ghost use Rattle.layers.specs.declared.causes.DialectFault.{DialectFault};
ghost use Rattle.std.specs.Prelude.{◌≡◌, Result};
ghost use Rattle.layers.specs.Spoken.{dialect_laws};
ghost use Rattle.vocabulary.specs.Words.{known};

use crate::causes::DialectFault;
use crate::table::Table;
use lists::{List, fits};
use scale::Scale;
use vocabulary::Vocabulary;

/// Whether the entries are words of the vocabulary below, 1 to 128 of them.
pub fn check_dialect<V: Vocabulary>(below: &V, entries: &[u16]) -> Result<(), DialectFault>
    ensures verdict { Verdict (V.Vocabulary.model below.now).count entries.now result }
    ensures only { (v : Result (Unit {0}) DialectFault) →
        Verdict (V.Vocabulary.model below.now).count entries.now v → v ≡ result }
{
    if !fits(entries.len()) {
        return Err(DialectFault::Count(entries.len()));
    }
    let count = below.count();
    match entries.iter().position(|entry| *entry >= count) {
        Some(i) => Err(DialectFault::Entry(i as u8)),
        None => Ok(()),
    }
}

/// A dialect: words of its own, each of which stands for a word below.
#[derive(Drop)]
pub struct Dialect<V: Vocabulary> {
    below: V,
    table: Table,
}

impl<V: Vocabulary> Dialect<V> {
    /// The dialect of entries that were checked, in memory of its own.
    pub fn new(below: V, entries: &[u16]) -> Dialect<V>
        requires { IsDialect (V.Vocabulary.model below).count entries.now }
        ensures below { result.below ≡ below }
        ensures words { tabled result.table ≡ listed entries.now }
    {
        Dialect {
            below,
            table: Table {
                entries: List::from_slice(entries, 0),
            },
        }
    }

    /// The word below that the word stands for; nothing for a number that is no word of the dialect.
    fn named(&self, word: u16) -> Option<u16>
        ensures { result ≡ known (tabled self.now.table).count (word_below (V.Vocabulary.model self.now.below).count (tabled self.now.table)) word }
    {
        let count = self.below.count();
        let entry = *self.table.entries.as_slice().get(word as usize)?;
        Some(if entry < count { entry } else { 0 })
    }
}

impl<V: Vocabulary> Vocabulary for Dialect<V> {
    type Degree = V::Degree;

    ghost model = { λ t. spoken V.Degree.Scale.operations (tabled t.table) (V.Vocabulary.model t.below) };

    ghost lawful = { λ t. dialect_laws V.Degree.Scale.operations (tabled t.table) (V.Vocabulary.model t.below) V.Degree.Scale.lawful (V.Vocabulary.lawful t.below) t.table.counted };

    fn count(&self) -> u16 {
        self.table.entries.len() as u16
    }

    fn arity(&self, word: u16) -> Option<u8> {
        self.below.arity(self.named(word)?)
    }

    fn likeness(&self, f: u16, g: u16) -> V::Degree {
        let (Some(left), Some(right)) = (self.named(f), self.named(g)) else {
            return V::Degree::bottom();
        };
        self.below.likeness(left, right)
    }
}
