ghost use Rattle.std.specs.Prelude.{◌≡◌, min, length, take, drop};
ghost use Rattle.sheet.specs.Promises.{Consistent, Promised};
ghost use Rattle.sheet.specs.Runs.{Replayed, Step};
ghost use Rattle.table.specs.Sheets.{sheet_of};

use crate::calls::{Answer, Call};
use crate::causes::SheetFault;
use crate::sheet::Sheet;
use vocabulary::{Lexicon, Vocabulary};

impl<'a, V: Vocabulary> Sheet<'a, V> {
    /// Carries out one call.
    pub fn carry_out<L: Lexicon>(
        &mut self,
        call: &Call<'_, '_, L>,
    ) -> Result<Answer<V::Degree>, SheetFault>
        ensures step { Consistent V.Degree.Scale.operations (V.Vocabulary.model self.old.vocabulary.now) (sheet_of self.old.table.rows self.old.table.equations) →
            Step L.Lexicon.spellings V.Degree.Scale.operations (V.Vocabulary.model self.old.vocabulary.now) (sheet_of self.old.table.rows self.old.table.equations) call.now result (sheet_of self.new.table.rows self.new.table.equations) }
        ensures vocabulary { self.new.vocabulary ≡ self.old.vocabulary }
    {
        match call {
            Call::Variable(label) => Ok(Answer::Row(self.variable(*label)?)),
            Call::Compose(word, rows) => Ok(Answer::Row(self.compose(*word, rows)?)),
            Call::Read(text, lexicon) => Ok(Answer::Row(self.read(text, *lexicon)?)),
            Call::Equate(p, q) => {
                self.equate(*p, *q)?;
                Ok(Answer::Done)
            }
            Call::Back(rows, equations) => {
                self.back((*rows, *equations))?;
                Ok(Answer::Done)
            }
            Call::Mark => {
                let (rows, equations) = self.mark();
                Ok(Answer::Marked(rows, equations))
            }
            Call::Degree => Ok(Answer::Degree(self.degree())),
            Call::Resolve(p) => Ok(Answer::Row(self.resolve(*p)?)),
        }
    }
}

/// Carries out the calls on a fresh sheet over the vocabulary, as many as there is room for outcomes, and answers the sheet.
pub fn replay<'a, V: Vocabulary, L: Lexicon>(
    vocabulary: &'a V,
    calls: &[Call<'_, '_, L>],
    outcomes: &mut [Result<Answer<V::Degree>, SheetFault>],
) -> Sheet<'a, V>
    ensures vocabulary { result.vocabulary.now ≡ vocabulary.now }
    ensures run { Replayed L.Lexicon.spellings V.Degree.Scale.operations (V.Vocabulary.model vocabulary.now)
        (take (min (length calls.now) (length outcomes.old)) calls.now)
        (take (min (length calls.now) (length outcomes.old)) outcomes.new)
        (sheet_of result.table.rows result.table.equations) }
    ensures rest { drop (min (length calls.now) (length outcomes.old)) outcomes.new
        ≡ drop (min (length calls.now) (length outcomes.old)) outcomes.old }
    ensures promise { Promised V.Degree.Scale.operations (V.Vocabulary.model vocabulary.now) (sheet_of result.table.rows result.table.equations) }
{
    let mut sheet = Sheet::new(vocabulary);
    let count = calls.len().min(outcomes.len());
    // by the index: a `zip` with `iter_mut` was tried, and what it leaves in the outcomes could not be read in the proof
    for i in 0..count {
        outcomes[i] = sheet.carry_out(&calls[i]);
    }
    sheet
}
