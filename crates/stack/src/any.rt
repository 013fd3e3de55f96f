ghost use Rattle.layers.specs.Dialects.{IsDialect};
ghost use Rattle.layers.specs.Verdicts.{Refused as NoDialect};
ghost use Rattle.layers.specs.declared.causes.DialectFault.{DialectFault};
ghost use Rattle.stack.specs.Stacks.{layered};
ghost use Rattle.std.specs.Prelude.{◌≡◌, Err, MatchResult, OnOk};
ghost use Rattle.vocabulary.specs.Words.{IsVocabulary};

use layers::{Dialect, DialectFault, Floor, check_dialect};
use vocabulary::Vocabulary;

/// The likeness of two words of a dialect over a floor over any vocabulary.
pub fn layered_likeness<V: Vocabulary + Drop>(
    below: V,
    floor: V::Degree,
    entries: &[u16],
    f: u16,
    g: u16,
) -> Result<V::Degree, DialectFault>
    ensures verdict { MatchResult result
        (λ d. IsDialect (V.Vocabulary.model below).count entries.now
        × (d ≡ (layered V.Degree.Scale.operations (V.Vocabulary.model below) floor entries.now).likeness f g))
        (NoDialect (V.Vocabulary.model below).count entries.now) }
    ensures only { (v : DialectFault) → NoDialect (V.Vocabulary.model below).count entries.now v → result ≡ Err v }
    ensures laws { OnOk result (IsVocabulary V.Degree.Scale.operations
        (layered V.Degree.Scale.operations (V.Vocabulary.model below) floor entries.now)) }
{
    let floor = Floor::new(below, floor);
    check_dialect(&floor, entries)?;
    let dialect = Dialect::new(floor, entries);
    Ok(dialect.likeness(f, g))
}
