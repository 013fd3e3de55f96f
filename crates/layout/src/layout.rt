ghost use Rattle.std.specs.Prelude.{◌≡◌, ℕ, ◌+◌, ◌*◌, ◌<◌, ◌≤◌, length, drop, slice_index};
ghost use Rattle.fault.specs.Firsts.{Below};
ghost use Rattle.layout.specs.Lexicons.{words_lexicon};
ghost use Rattle.layout.specs.Entries.{GoodEntry, Present};
ghost use Rattle.layout.specs.Forms.{GoodForm};
ghost use Rattle.layout.specs.Kinds.{number_of};
ghost use Rattle.layout.specs.Places.{arity_at, code_of, count_of, entry_start, kind_of, spelling_of, table_start};
ghost use Rattle.std.specs.Option.{option_map};
ghost use Rattle.vocabulary.specs.Words.{known};

use crate::entries::{entry_end, find, locate};
use crate::kind::Kind;
use vocabulary::{Lexicon, MOST_WORDS};

/// A book of the right form, read where it lies: its words and its table are parts of the lent bytes.
#[derive(Clone, Copy)]
pub struct Layout<'a> {
    bytes: &'a [u8],
    table: &'a [u8],
    kind: Kind,
    count: u8,
    ghost kinded: { number_of kind ≡ kind_of bytes.now },
    ghost counted: { count ≡ count_of bytes.now },
    ghost some: { 1 ≤ count },
    ghost few: { count ≤ 128 },
    ghost placed: { table.now ≡ drop (table_start bytes.now) bytes.now },
    ghost filled: { length table.now ≡ 2 * (count * count) },
    ghost present: { Below (count_of bytes.now) (Present bytes.now) },
    ghost good: { ∥ Below (count_of bytes.now) (GoodEntry bytes.now) ∥₁ },
}

impl<'a> Layout<'a> {
    /// The layout of bytes that passed `check_form`.
    pub fn new(bytes: &'a [u8]) -> Layout<'a>
        requires { GoodForm bytes.now }
        ensures { result.bytes.now ≡ bytes.now }
    {
        let kind = Kind::try_from(bytes[3]).unwrap();
        let count = bytes[4];
        let start = locate(bytes, count);
        Layout {
            bytes,
            table: &bytes[start..],
            kind,
            count,
        }
    }

    /// What the likenesses of the book are.
    pub fn kind(&self) -> Kind
        ensures { number_of result ≡ kind_of self.now.bytes.now }
    {
        self.kind
    }

    /// How many words there are.
    pub fn count(&self) -> u8
        ensures value { result ≡ count_of self.now.bytes.now }
        ensures bound { (1 ≤ result) × (result ≤ 128) }
    {
        self.count
    }

    /// Where the entry of the word begins; nothing where the number is no word.
    fn start(&self, word: u16) -> Option<usize>
        ensures { result ≡ known (count_of self.now.bytes.now) (entry_start self.now.bytes.now) word }
    {
        if word >= self.count as u16 {
            return None;
        }
        Some(locate(self.bytes, word as u8))
    }

    /// How many arguments the word takes; nothing where the number is no word.
    pub fn arity(&self, word: u16) -> Option<u8>
        ensures { result ≡ known (count_of self.now.bytes.now) (arity_at self.now.bytes.now) word }
    {
        let at = self.start(word)?;
        Some(self.bytes[at])
    }

    /// The number that the table has for the words `i` and `j`; nothing where one of them is no word.
    pub fn code(&self, i: u16, j: u16) -> Option<u16>
        ensures { result ≡ code_of self.now.bytes.now i j }
    {
        if i >= self.count as u16 || j >= self.count as u16 {
            return None;
        }
        let at = 2 * (i as usize * self.count as usize + j as usize);
        Some(u16::from_be_bytes([self.table[at], self.table[at + 1]]))
    }

    /// The spelling of the word; nothing where the number is no word.
    pub fn spelling_of(&self, word: u16) -> Option<&'a [u8]>
        ensures { option_map (λ x. x.now) result ≡ spelling_of self.now.bytes.now word }
    {
        let at = self.start(word)?;
        Some(&self.bytes[at + 2..entry_end(self.bytes, at)])
    }

    /// The arities of all words, each at its number, and 0 behind them.
    pub fn arities(&self) -> [u8; MOST_WORDS]
        ensures rest { (k : ℕ) → count_of self.now.bytes.now ≤ k → slice_index result k ≡ 0 }
        ensures places { Below (count_of self.now.bytes.now) (λ i. slice_index result i ≡ arity_at self.now.bytes.now i) }
    {
        let mut arities = [0; MOST_WORDS];
        let mut at = 5;
        for arity in arities[..self.count as usize].iter_mut() {
            *arity = self.bytes[at];
            at = entry_end(self.bytes, at);
        }
        arities
    }
}

impl Lexicon for Layout<'_> {
    ghost spellings = { λ l. spelling_of l.bytes.now };

    ghost lawful = { λ l. words_lexicon l.bytes.now l.good };

    fn spelling(&self, word: u16) -> Option<&[u8]> {
        self.spelling_of(word)
    }

    fn word(&self, spelling: &[u8]) -> Option<u16> {
        Some(find(self.bytes, self.count, spelling)? as u16)
    }
}
