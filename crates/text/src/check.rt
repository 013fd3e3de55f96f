ghost use Rattle.text.specs.Verdicts.{Judged};

use crate::causes::TextFault;
use crate::signature::Signature;
use crate::source::Source;
use vocabulary::Lexicon;

/// The most bytes of a text.
const LONGEST_TEXT: usize = 4096;

/// Whether the bytes are the text of a term over the words of the lexicon, of which those numbered below the
/// number of arities are the vocabulary's. Of the refusals that fit, the one with the lowest number is told.
pub fn check_text<L: Lexicon>(text: &[u8], lexicon: &L, arities: &[u8]) -> Result<(), TextFault>
    ensures { Judged (L.Lexicon.spellings lexicon.now) arities.now text.now result }
{
    if text.is_empty() {
        return Err(TextFault::Empty);
    }
    if text.len() > LONGEST_TEXT {
        return Err(TextFault::TooLong);
    }
    let source = Source { bytes: text };
    if let Some(place) = source.too_deep() {
        return Err(TextFault::TooDeep(place as u32));
    }
    source.check_grammar()?;
    source.check_words(&Signature { lexicon, arities })
}
