ghost use Rattle.lists.specs.Counts.{Counted};
ghost use Rattle.lists.specs.Entries.{entries as held};
ghost use Rattle.std.specs.Prelude.{length};

use lists::List;
use vocabulary::MOST_WORDS;

/// The words of a dialect: 1 to 128 entries, each the number of a word below.
#[derive(Drop)]
pub(crate) struct Table {
    pub(crate) entries: List<u16, MOST_WORDS>,
    ghost counted: { Counted (length (held entries)) },
}
