ghost use Rattle.lists.specs.Counts.{Counted};
ghost use Rattle.std.specs.Prelude.{Decides};

use vocabulary::MOST_WORDS;

/// Whether so many words may be: 1 to 128.
pub fn fits(count: usize) -> bool
    ensures { Decides result (Counted count) }
{
    count >= 1 && count <= MOST_WORDS
}
