ghost use Rattle.std.specs.Prelude.{◌≡◌, ◌<◌, length};
ghost use Rattle.reading.specs.Reads.{ReadGives};
ghost use Rattle.sheet.specs.Arities.{arities_of};
ghost use Rattle.sheet.specs.Calls.{ComposeGives, EquateGives, PossibleOrRefused, ResolveGives, VariableGives, equation, mark_of};
ghost use Rattle.table.specs.Calls.{BackGives, KeptOnErr};
ghost use Rattle.table.specs.Equating.{Between};
ghost use Rattle.table.specs.Sheets.{sheet_of};
ghost use Rattle.table.specs.Uniformity.{IsUniform};
ghost use Rattle.unification.specs.Closures.{IsDegree};
ghost use Rattle.unification.specs.Sheets.{IsSheet, fresh};

use crate::causes::{ComposeFault, EquateFault, NoRow, VariableFault};
use crate::degree::gather;
use reading::{ReadFault, read_text};
use scale::Scale;
use table::{BackFault, Equation, Table};
use vocabulary::{Lexicon, Vocabulary, arities};

/// A sheet over a vocabulary, which it only borrows. Each composed row has as many arguments as its representative.
#[derive(Drop)]
pub struct Sheet<'a, V: Vocabulary> {
    vocabulary: &'a V,
    table: Table,
    ghost uniform: { IsUniform table.rows table.equations table.classes },
}

impl<'a, V: Vocabulary> Sheet<'a, V> {
    /// A fresh sheet: no rows and no equations.
    pub fn new(vocabulary: &'a V) -> Self
        ensures vocabulary { result.vocabulary.now ≡ vocabulary.now }
        ensures sheet { sheet_of result.table.rows result.table.equations ≡ fresh }
    {
        Sheet {
            vocabulary,
            table: Table::new(),
        }
    }

    /// The sheet's degree.
    pub fn degree(&self) -> V::Degree
        ensures { IsDegree V.Degree.Scale.operations (V.Vocabulary.model self.now.vocabulary.now) (sheet_of self.now.table.rows self.now.table.equations) result }
    {
        gather(self.vocabulary, &self.table, self.table.classes())
    }

    /// The row of the label, which is new where it had none.
    pub fn variable(&mut self, label: u16) -> Result<u16, VariableFault>
        ensures answer { VariableGives (sheet_of self.old.table.rows self.old.table.equations) label result (sheet_of self.new.table.rows self.new.table.equations) }
        ensures kept { KeptOnErr result self.old.table self.new.table }
        ensures vocabulary { self.new.vocabulary ≡ self.old.vocabulary }
    {
        Ok(self.table.variable(label)?)
    }

    /// A new row of the word and the rows of its arguments.
    pub fn compose(&mut self, word: u16, rows: &[u16]) -> Result<u16, ComposeFault>
        ensures answer { ComposeGives (V.Vocabulary.model self.old.vocabulary.now) (sheet_of self.old.table.rows self.old.table.equations) word rows.now result (sheet_of self.new.table.rows self.new.table.equations) }
        ensures kept { KeptOnErr result self.old.table self.new.table }
        ensures vocabulary { self.new.vocabulary ≡ self.old.vocabulary }
    {
        let Some(arity) = self.vocabulary.arity(word) else {
            return Err(ComposeFault::NoWord);
        };
        if rows.len() != arity as usize {
            return Err(ComposeFault::WrongArguments);
        }
        Ok(self.table.compose(word, rows)?)
    }

    /// The row of the text, by the lexicon's words: a variable gets its row when first met, a term after its arguments, left to right.
    pub fn read<L: Lexicon>(&mut self, text: &[u8], lexicon: &L) -> Result<u16, ReadFault>
        ensures answer { ReadGives (L.Lexicon.spellings lexicon.now) (arities_of (V.Vocabulary.model self.old.vocabulary.now)) (sheet_of self.old.table.rows self.old.table.equations) text.now result (sheet_of self.new.table.rows self.new.table.equations) }
        ensures kept { KeptOnErr result self.old.table self.new.table }
        ensures vocabulary { self.new.vocabulary ≡ self.old.vocabulary }
    {
        let count = self.vocabulary.count();
        let arities = arities(self.vocabulary);
        read_text(&mut self.table, text, lexicon, &arities[0..count as usize])
    }

    /// Keeps the first rows and the first equations, so many of each as the mark says.
    pub fn back(&mut self, mark: (u16, u16)) -> Result<(), BackFault>
        ensures answer { BackGives (sheet_of self.old.table.rows self.old.table.equations) mark.0 mark.1 result (sheet_of self.new.table.rows self.new.table.equations) }
        ensures kept { KeptOnErr result self.old.table self.new.table }
        ensures vocabulary { self.new.vocabulary ≡ self.old.vocabulary }
    {
        let (rows, equations) = mark;
        self.table.back(rows, equations)
    }

    /// Puts the two rows, which may be the same row, at the end of the equations.
    pub fn equate(&mut self, p: u16, q: u16) -> Result<(), EquateFault>
        ensures answer { IsSheet (V.Vocabulary.model self.old.vocabulary.now).count (V.Vocabulary.model self.old.vocabulary.now).arity (sheet_of self.old.table.rows self.old.table.equations) →
            EquateGives V.Degree.Scale.operations (V.Vocabulary.model self.old.vocabulary.now) (sheet_of self.old.table.rows self.old.table.equations) (equation p q) result (sheet_of self.new.table.rows self.new.table.equations) }
        ensures possible { IsSheet (V.Vocabulary.model self.old.vocabulary.now).count (V.Vocabulary.model self.old.vocabulary.now).arity (sheet_of self.old.table.rows self.old.table.equations) →
            Between (sheet_of self.old.table.rows self.old.table.equations) (equation p q) →
            length (sheet_of self.old.table.rows self.old.table.equations).equations < 128 →
            PossibleOrRefused V.Degree.Scale.operations (V.Vocabulary.model self.old.vocabulary.now) (sheet_of self.old.table.rows self.old.table.equations) (equation p q) result }
        ensures kept { KeptOnErr result self.old.table self.new.table }
        ensures vocabulary { self.new.vocabulary ≡ self.old.vocabulary }
    {
        let e = Equation { left: p, right: q };
        let classes = self.table.join(e)?;
        if gather(self.vocabulary, &self.table, &classes) == V::Degree::bottom() {
            return Err(EquateFault::Clash);
        }
        let Some(depths) = self.table.deepen(e, &classes) else {
            return Err(EquateFault::Occurs);
        };
        self.table.commit(e, &classes, &depths);
        Ok(())
    }

    /// How many rows and how many equations there are.
    pub fn mark(&self) -> (u16, u16)
        ensures { result ≡ mark_of (sheet_of self.now.table.rows self.now.table.equations) }
    {
        (self.table.row_count(), self.table.equation_count())
    }

    /// The representative of the row.
    pub fn resolve(&self, p: u16) -> Result<u16, NoRow>
        ensures { ResolveGives (sheet_of self.now.table.rows self.now.table.equations) p result }
    {
        self.table.representative(p).ok_or(NoRow)
    }
}
