ghost use Rattle.layout.specs.Forms.{BadForm, GoodForm, Headed};
ghost use Rattle.layout.specs.declared.causes.FormFault.{FormFault};
ghost use Rattle.std.specs.Prelude.{◌≡◌, MatchResult};

use crate::causes::FormFault;
use crate::entries::entries;
use crate::kind::Kind;
use vocabulary::MOST_WORDS;

/// The version of a book that is known.
const VERSION: u8 = 1;

/// Refuses bytes whose header is not that of a book.
fn check_header(bytes: &[u8]) -> Result<(), FormFault>
    ensures { MatchResult result (λ _. Headed bytes.now) (BadForm bytes.now) }
{
    let [high, low, version, kind, count, ..] = *bytes else {
        return Err(FormFault::Short);
    };
    if bytes.len() != u16::from_be_bytes([high, low]) as usize + 2 {
        return Err(FormFault::Length);
    }
    if version != VERSION {
        return Err(FormFault::Version(version));
    }
    Kind::try_from(kind)?;
    if count < 1 || count as usize > MOST_WORDS {
        return Err(FormFault::Count(count));
    }
    Ok(())
}

/// Refuses bytes that have not the form of a book.
fn form(bytes: &[u8]) -> Result<(), FormFault>
    ensures { MatchResult result (λ _. GoodForm bytes.now) (BadForm bytes.now) }
{
    check_header(bytes)?;
    let count = bytes[4] as usize;
    let end = entries(bytes)? + 2 * (count * count);
    if end > bytes.len() {
        return Err(FormFault::TableCut);
    }
    if end < bytes.len() {
        return Err(FormFault::LeftOver);
    }
    Ok(())
}

/// Refuses bytes that have not the form of a book, by what is wrong first: no other fault fits. What the table says is
/// not looked at.
pub fn check_form(bytes: &[u8]) -> Result<(), FormFault>
    ensures fits { MatchResult result (λ _. GoodForm bytes.now) (BadForm bytes.now) }
    ensures only { MatchResult result (λ _. (f : FormFault) → BadForm bytes.now f → ⊥) (λ f. (g : FormFault) → BadForm bytes.now g → g ≡ f) }
{
    form(bytes)
}
