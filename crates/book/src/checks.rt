ghost use Rattle.book.specs.Verdicts.{Verdict};
ghost use Rattle.book.specs.declared.causes.BookFault.{BookFault};
ghost use Rattle.layout.specs.declared.kind.Kind.{Kind};
ghost use Rattle.std.specs.Prelude.{◌≡◌, Result};

use crate::causes::BookFault;
use crate::laws::check_laws;
use layout::{Kind, Layout, check_form};
use scale::{Lines, Mark};

/// Says of which kind the book in the bytes is, or what is wrong with it first.
fn verdict(bytes: &[u8]) -> Result<Kind, BookFault>
    ensures { Verdict bytes.now result }
{
    check_form(bytes)?;
    let layout = Layout::new(bytes);
    let kind = layout.kind();
    match kind {
        Kind::Marks => check_laws::<Mark>(&layout)?,
        Kind::Lines => check_laws::<Lines>(&layout)?,
    }
    Ok(kind)
}

/// Says of which kind the book in the bytes is, or what is wrong with it first: no other verdict fits.
pub fn check(bytes: &[u8]) -> Result<Kind, BookFault>
    ensures fits { Verdict bytes.now result }
    ensures only { (v : Result Kind BookFault) → Verdict bytes.now v → v ≡ result }
{
    verdict(bytes)
}
