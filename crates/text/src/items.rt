ghost use Rattle.std.specs.Prelude.{◌≡◌, ◌<◌, ◌≤◌, List, [], length, drop, MatchOption};
ghost use Rattle.text.specs.Items.{ItemsLeft, NextItem, Standing};

use crate::source::Source;
use crate::token::Token;
use vocabulary::Lexicon;

/// What a text names.
#[derive(Clone, Copy, PartialEq, Eq, Debug)]
pub enum Item {
    /// A variable, by its label.
    Variable(u16),
    /// A word, by its number.
    Word(u16),
}

/// An item of a text, and where it stands: from `place` up to `end`.
#[derive(Clone, Copy, PartialEq, Eq, Debug)]
pub struct ItemAt {
    pub item: Item,
    pub place: usize,
    pub end: usize,
}

impl Source<'_> {
    /// The first variable or word from the place on, where a token begins or the text ends; nothing where there is none, or where the
    /// lexicon lacks the word.
    pub fn next_item<L: Lexicon>(&self, lexicon: &L, from: usize) -> Option<ItemAt>
        requires { from ≤ length self.now.bytes.now }
        ensures moves { MatchOption result
            (from ≤ length self.now.bytes.now)
            (λ a. (from ≤ a.place) × (a.place < a.end) × (a.end ≤ length self.now.bytes.now)) }
        ensures finds { (ss : List Standing) → ItemsLeft (L.Lexicon.spellings lexicon.now) (drop from self.now.bytes.now) from ss → MatchOption result
            (ss ≡ [])
            (NextItem (L.Lexicon.spellings lexicon.now) self.now.bytes.now ss) }
    {
        let mut at = from;
        while let Ok((token, end)) = self.lex(at) {
            let item = match token {
                Token::Variable(label) => Item::Variable(label.into()),
                Token::Word(spelling) => Item::Word(lexicon.word(spelling)?),
                _ => {
                    at = end;
                    continue;
                }
            };
            return Some(ItemAt {
                item,
                place: at,
                end,
            });
        }
        None
    }
}
