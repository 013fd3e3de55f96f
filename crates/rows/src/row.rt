ghost use Rattle.std.specs.Prelude.{◌≡◌, ◌+◌, ◌*◌, Decides, ◌<◌, length, slice_index};
ghost use Rattle.rows.specs.Limits.{most_rows};
ghost use Rattle.rows.specs.Stored.{InSlots, args_of, count_of, row_of, slots_of, word_of};
ghost use Rattle.unification.specs.Closures.{kind};
ghost use Rattle.unification.specs.Sheets.{variable};
ghost use Rattle.std.proofs.Math.Option.{some};

use crate::limits::{MOST_ROWS, SLOTS};

/// A row: a variable by its label, or a word with the number of its arguments and slots, of which the first so many hold their rows. It is
/// no list: a list's length takes 8 bytes, and a sheet has 512 rows.
#[derive(Clone, Copy)]
pub enum Row {
    Variable(u16),
    Composed(u16, u8, [u16; SLOTS]),
}

impl Row {
    /// The rows of its arguments: none of a variable.
    pub fn arguments(&self) -> &[u16]
        ensures { result.now ≡ args_of (some (row_of self.now)) }
    {
        match self {
            Row::Variable(_) => &[],
            Row::Composed(_, count, slots) => {
                let slots = &slots[..];
                let len = (*count as usize).min(slots.len());
                &slots[..len]
            }
        }
    }

    /// How many arguments there are.
    pub fn arity(&self) -> usize
        ensures count { result ≡ count_of self.now }
        ensures arguments { InSlots self.now → result ≡ length (args_of (some (row_of self.now))) }
    {
        match self {
            Row::Variable(_) => 0,
            Row::Composed(_, count, _) => *count as usize,
        }
    }

    /// The row in slot `k`; 0 where there is none.
    pub fn slot(&self, k: usize) -> u16
        ensures slot { result ≡ slice_index (slots_of self.now) k }
        ensures argument { k < count_of self.now → result ≡ slice_index (args_of (some (row_of self.now))) k }
    {
        match self {
            Row::Variable(_) => 0,
            Row::Composed(_, _, slots) => slots.get(k).copied().unwrap_or(0),
        }
    }

    /// Its word; nothing of a variable.
    pub fn word(&self) -> Option<u16>
        ensures { result ≡ word_of (some (row_of self.now)) }
    {
        match self {
            Row::Variable(_) => None,
            Row::Composed(word, _, _) => Some(*word),
        }
    }

    /// The rank of this row at `p`: composed rows come before variables, and then lower ones before higher ones.
    pub fn rank(&self, p: usize) -> usize
        requires { p < most_rows }
        ensures { result ≡ kind (some (row_of self.now)) * most_rows + p }
    {
        match self {
            Row::Variable(_) => MOST_ROWS + p,
            Row::Composed(_, _, _) => p,
        }
    }

    /// Whether this is a word with arguments, or without.
    pub fn is_composed(&self) -> bool
        ensures { Decides result (kind (some (row_of self.now)) ≡ 0) }
    {
        matches!(self, Row::Composed(_, _, _))
    }

    /// Whether this is the variable of that label.
    pub fn is_variable(&self, label: u16) -> bool
        ensures { Decides result (row_of self.now ≡ variable label) }
    {
        matches!(self, Row::Variable(x) if *x == label)
    }
}
