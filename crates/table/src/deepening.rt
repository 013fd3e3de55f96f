ghost use Rattle.std.specs.Prelude.{◌≡◌, ◌+◌, ◌<◌, ◌≤◌, length, Decides, MatchOption, MatchResult};
ghost use Rattle.fault.specs.Firsts.{Below};
ghost use Rattle.table.specs.Deepening.{Heights, Ready, Settled, Still, Stuck, missing};
ghost use Rattle.rows.specs.Stored.{at, depth_at, rows_of};

use crate::classing::Classing;
use rows::Numbers;

/// Depths that are given one after the other: below `next`, and falling from each row to the classes of its arguments.
#[derive(Clone, Copy)]
struct Deepening<'r> {
    classing: Classing<'r>,
    depths: Numbers,
    next: usize,
    ghost heights: { Heights (rows_of classing.rows.now.items) (length (rows_of classing.rows.now.items)) classing.classes.of depths.of next },
}

impl<'r> Deepening<'r> {
    /// No row has a depth.
    fn new(classing: &Classing<'r>) -> Self
        ensures { result.classing ≡ classing.now }
    {
        Deepening {
            classing: *classing,
            depths: Numbers::zeros(),
            next: 1,
        }
    }

    /// Whether the class of row `p` has a depth.
    fn has_depth(&self, p: usize) -> bool
        requires { p < length (rows_of self.now.classing.rows.now.items) }
        ensures { Decides result (0 < depth_at self.now.classing.classes.of self.now.depths.of p) }
    {
        self.depths.of(self.classing.classes.of(p)) != 0
    }

    /// Whether row `p` has no depth yet, but the classes of all its arguments have one.
    fn is_ready(&self, p: usize) -> bool
        requires { p < length (rows_of self.now.classing.rows.now.items) }
        ensures { Decides result
            ((at self.now.depths.of p ≡ 0)
            × Ready (rows_of self.now.classing.rows.now.items) self.now.classing.classes.of self.now.depths.of p) }
    {
        self.depths.of(p) == 0
            && self
                .classing
                .rows
                .arguments(p)
                .iter()
                .all(|x| self.has_depth(*x as usize))
    }

    /// A row that is ready for a depth.
    fn find_ready(&self) -> Option<usize>
        ensures { let rows = rows_of self.now.classing.rows.now.items in
            let c = self.now.classing.classes.of in
            MatchOption result
            (Still rows (length rows) c self.now.depths.of)
            (λ p. (p < length rows) × (at self.now.depths.of p ≡ 0) × Ready rows c self.now.depths.of p) }
    {
        (0..self.classing.rows.len()).find(|&p| self.is_ready(p))
    }

    /// A row without a depth.
    fn find_missing(&self) -> Option<usize>
        ensures { let n = length (rows_of self.now.classing.rows.now.items) in
            MatchOption result
            (Below n (λ p. 0 < at self.now.depths.of p))
            (λ p. (p < n) × (at self.now.depths.of p ≡ 0)) }
    {
        (0..self.classing.rows.len()).find(|&p| self.depths.of(p) == 0)
    }

    /// Gives row `p`, which is ready, the next depth.
    fn give(&mut self, p: usize)
        requires row { p < length (rows_of self.old.classing.rows.now.items) }
        requires none { at self.old.depths.of p ≡ 0 }
        requires ready { Ready (rows_of self.old.classing.rows.now.items) self.old.classing.classes.of self.old.depths.of p }
        ensures classing { self.new.classing ≡ self.old.classing }
        ensures missing { let n = length (rows_of self.old.classing.rows.now.items) in
            missing self.new.depths.of n + 1 ≡ missing self.old.depths.of n }
    {
        self.depths.put(p, self.next as u16);
        self.next += 1;
    }

    /// Gives depths in one pass from the lowest row up.
    fn sweep(&mut self)
        ensures classing { self.new.classing ≡ self.old.classing }
        ensures missing { let n = length (rows_of self.old.classing.rows.now.items) in
            missing self.new.depths.of n ≤ missing self.old.depths.of n }
    {
        // `p` is a row's number, and each turn changes what the next one reads: there is no list to go over.
        for p in 0..self.classing.rows.len() {
            if self.is_ready(p) {
                self.give(p);
            }
        }
    }
}

impl<'r> Classing<'r> {
    /// Depths for all rows, that fall from each row to the classes of its arguments; or a row that gets none.
    pub fn deepen(&self) -> Result<Numbers, usize>
        ensures { let rows = rows_of self.now.rows.now.items in
            let c = self.now.classes.of in
            MatchResult result
            (λ d. Settled rows (length rows) c d.of)
            (Stuck rows (length rows) c) }
    {
        let mut deepening = Deepening::new(self);
        while let Some(p) = deepening.find_ready() {
            deepening.give(p);
            deepening.sweep();
        }
        // `map_or(Ok(deepening.depths), Err)` says the same, and is no plainer.
        match deepening.find_missing() {
            Some(p) => Err(p),
            None => Ok(deepening.depths),
        }
    }
}
