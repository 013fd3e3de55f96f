ghost use Rattle.account.specs.Names.{name_of};
ghost use Rattle.std.specs.Prelude.{◌≡◌, IfOk, string_bytes};

use std::alloc::{AllocError, Global};
use std::str;
use vocabulary::Lexicon;

/// How a word is named: by its spelling, and by its number where it has none.
pub fn name<L: Lexicon>(heap: Global, lexicon: &L, word: u16) -> Result<String, AllocError>
    ensures { IfOk result (λ s. string_bytes s ≡ name_of (L.Lexicon.spellings lexicon.now) word) }
{
    let Some(spelling) = lexicon.spelling(word) else {
        return format!(in heap; "word {word}");
    };
    String::from_str(heap, str::from_utf8(spelling).unwrap())
}
