ghost use Rattle.std.specs.Prelude.{◌≡◌, ◌<◌, ◌≤◌, [], ◌∷◌, ◌++◌, map, length, take, Decides, slice_index};
ghost use Rattle.fault.specs.Firsts.{Below};
ghost use Rattle.lists.specs.Entries.{entries};
ghost use Rattle.rows.specs.Limits.{most_rows};
ghost use Rattle.rows.specs.Stored.{InSlots, Lower, Slots, args_at, args_of, rank, row_of, rows_of, word_of};
ghost use Rattle.unification.specs.Closures.{kind};
ghost use Rattle.std.proofs.Math.ListN.{get_elem?};
ghost use Rattle.std.proofs.Math.Option.{some};

use crate::limits::MOST_ROWS;
use crate::row::Row;
use lists::List;

/// Up to `MOST_ROWS` rows, each with arguments among the rows before it.
#[derive(Clone, Copy)]
pub struct Rows {
    items: List<Row, MOST_ROWS>,
    ghost slots: { Slots (entries items) },
    ghost lower: { Lower (rows_of items) },
}

// `p` is below the number of rows wherever one is asked for, as an index is within its slice.
impl Rows {
    /// No rows.
    pub fn none() -> Self
        ensures { rows_of result.items ≡ [] }
    {
        Rows {
            items: List::new(Row::Variable(0)),
        }
    }

    /// How many there are.
    pub fn len(&self) -> usize
        ensures value { result ≡ length (rows_of self.now.items) }
        ensures bound { result ≤ most_rows }
    {
        self.items.len()
    }

    /// The rows, in their order.
    pub fn as_slice(&self) -> &[Row]
        ensures { map row_of result.now ≡ rows_of self.now.items }
    {
        self.items.as_slice()
    }

    /// Row `p`.
    pub fn row(&self, p: usize) -> &Row
        requires { p < length (rows_of self.now.items) }
        ensures { get_elem? (rows_of self.now.items) p ≡ some (row_of result.now) }
    {
        &self.as_slice()[p]
    }

    /// How many arguments row `p` has.
    pub fn arity(&self, p: usize) -> usize
        requires { p < length (rows_of self.now.items) }
        ensures { result ≡ length (args_at (rows_of self.now.items) p) }
    {
        self.arguments(p).len()
    }

    /// The arguments of row `p`.
    pub fn arguments(&self, p: usize) -> &[u16]
        requires { p < length (rows_of self.now.items) }
        ensures { result.now ≡ args_at (rows_of self.now.items) p }
    {
        self.row(p).arguments()
    }

    /// Argument `k` of row `p`.
    pub fn argument(&self, p: usize, k: usize) -> usize
        requires row { p < length (rows_of self.now.items) }
        requires place { k < length (args_at (rows_of self.now.items) p) }
        ensures value { result ≡ slice_index (args_at (rows_of self.now.items) p) k }
        ensures below { result < p }
    {
        self.row(p).slot(k) as usize
    }

    /// The word of row `p`; nothing of a variable, or where there is no such row.
    pub fn word(&self, p: usize) -> Option<u16>
        ensures { result ≡ word_of (get_elem? (rows_of self.now.items) p) }
    {
        self.as_slice().get(p)?.word()
    }

    /// Whether row `p` is composed.
    pub fn is_composed(&self, p: usize) -> bool
        requires { p < length (rows_of self.now.items) }
        ensures { Decides result (kind (get_elem? (rows_of self.now.items) p) ≡ 0) }
    {
        self.row(p).is_composed()
    }

    /// The rank of row `p`.
    pub fn rank(&self, p: usize) -> usize
        requires { p < length (rows_of self.now.items) }
        ensures { result ≡ rank (rows_of self.now.items) p }
    {
        self.row(p).rank(p)
    }

    /// One more row, after the last.
    pub fn push(&mut self, row: Row)
        requires room { length (rows_of self.old.items) < most_rows }
        requires slots { InSlots row }
        requires lower { Below (length (args_of (some (row_of row)))) (λ i. slice_index (args_of (some (row_of row))) i < length (rows_of self.old.items)) }
        ensures { rows_of self.new.items ≡ rows_of self.old.items ++ (row_of row ∷ []) }
    {
        self.items.push(row);
    }

    /// Keeps the first `n` rows.
    pub fn cut(&mut self, n: usize)
        requires { n ≤ length (rows_of self.old.items) }
        ensures { rows_of self.new.items ≡ take n (rows_of self.old.items) }
    {
        self.items.truncate(n);
    }
}
