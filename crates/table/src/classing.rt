ghost use Rattle.std.specs.Prelude.{◌≡◌, ◌<◌, ◌≢◌, length, MatchOption, slice_index};
ghost use Rattle.fault.specs.Firsts.{Below};
ghost use Rattle.table.specs.Joining.{Agrees, Apart, merged};
ghost use Rattle.rows.specs.Stored.{args_at, at, rows_of};

use rows::{Numbers, Rows};

/// Rows, and for each the number of its class, which is that of a row too.
#[derive(Clone, Copy)]
pub struct Classing<'r> {
    pub rows: &'r Rows,
    pub classes: Numbers,
    ghost within: { Below (length (rows_of rows.now.items)) (λ p. at classes.of p < length (rows_of rows.now.items)) },
}

impl<'r> Classing<'r> {
    /// Makes the classes of rows `a` and `b` one, under the number of lesser rank.
    pub fn merge(&mut self, a: usize, b: usize)
        requires left { a < length (rows_of self.old.rows.now.items) }
        requires right { b < length (rows_of self.old.rows.now.items) }
        ensures rows { self.new.rows ≡ self.old.rows }
        ensures classes { self.new.classes.of ≡ merged (rows_of self.old.rows.now.items) self.old.classes.of a b }
    {
        let x = self.classes.of(a);
        let y = self.classes.of(b);
        if self.rows.rank(x) <= self.rows.rank(y) {
            self.classes.rename(y as u16, x as u16);
        } else {
            self.classes.rename(x as u16, y as u16);
        }
    }

    /// The first place at which the arguments of `p` and `q`, equally many, have two numbers.
    fn parting(&self, p: usize, q: usize) -> Option<usize>
        requires left { p < length (rows_of self.now.rows.now.items) }
        requires right { q < length (rows_of self.now.rows.now.items) }
        requires arities { length (args_at (rows_of self.now.rows.now.items) p) ≡ length (args_at (rows_of self.now.rows.now.items) q) }
        ensures { let xs = args_at (rows_of self.now.rows.now.items) p in
            let ys = args_at (rows_of self.now.rows.now.items) q in
            let c = self.now.classes.of in
            MatchOption result
            (Below (length xs) (λ k. at c (slice_index xs k) ≡ at c (slice_index ys k)))
            (λ k. (k < length xs) × (at c (slice_index xs k) ≢ at c (slice_index ys k))) }
    {
        let xs = self.rows.arguments(p);
        let ys = self.rows.arguments(q);
        xs.iter().zip(ys).position(|(x, y)| self.classes.of(*x as usize)
            != self.classes.of(*y as usize))
    }

    /// Two arguments that have to be in one class, and are not yet; rows are looked at from the highest down.
    pub fn find_apart(&self) -> Option<(usize, usize)>
        ensures { let rows = rows_of self.now.rows.now.items in
            MatchOption result
            (Below (length rows) (Agrees rows self.now.classes.of))
            (λ s. Apart rows (length rows) self.now.classes.of s.0 s.1) }
    {
        let rows = self.rows;
        for p in (0..rows.len()).rev() {
            let q = self.classes.of(p);
            // a row agrees with itself
            if q != p && rows.arity(p) == rows.arity(q) {
                if let Some(k) = self.parting(p, q) {
                    return Some((rows.argument(p, k), rows.argument(q, k)));
                }
            }
        }
        None
    }
}
