ghost use Rattle.book.specs.Likeness.{degree_at, likeness_of};
ghost use Rattle.std.specs.Prelude.{◌≡◌};

use layout::Layout;
use scale::Scale;

/// The degree that the table has for the two words, if its number there is the code of one.
pub fn degree_at<S: Scale>(layout: &Layout, i: u16, j: u16) -> Option<S>
    ensures { result ≡ degree_at S.Scale.operations layout.now.bytes.now i j }
{
    S::from_code(layout.code(i, j)?)
}

/// At what degree the two words are alike; bottom where the table has no degree for them.
pub fn likeness<S: Scale>(layout: &Layout, i: u16, j: u16) -> S
    ensures { result ≡ likeness_of S.Scale.operations layout.now.bytes.now i j }
{
    degree_at(layout, i, j).unwrap_or(S::bottom())
}
