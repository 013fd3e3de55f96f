ghost use Rattle.std.specs.Prelude.{◌≡◌, ◌<◌, ◌≤◌, ◌≢◌, length, MatchOption};
ghost use Rattle.table.specs.Joined.{JoinGives};
ghost use Rattle.table.specs.Joining.{Differ, Sides, Sound, Uniform, labels};
ghost use Rattle.table.specs.Sheets.{sheet_of};
ghost use Rattle.rows.specs.Stored.{at, rows_of};
ghost use Rattle.unification.specs.Closures.{Closure};
ghost use Rattle.unification.specs.Sheets.{IsCoherent};

use crate::causes::Unequal;
use crate::classing::Classing;
use rows::{Equations, Numbers};

/// Classes of a sheet that are being closed: they put together no more than the closure does, and both sides of each equation.
/// `equations` are what the classes come from, and are not looked at.
#[derive(Clone, Copy)]
pub struct Closing<'r> {
    pub classing: Classing<'r>,
    pub equations: &'r Equations,
    ghost coherent: { ∥ IsCoherent (sheet_of classing.rows.now equations.now) ∥₁ },
    ghost sound: { Sound (sheet_of classing.rows.now equations.now) (length (rows_of classing.rows.now.items)) classing.classes.of },
    ghost sides: { Sides (sheet_of classing.rows.now equations.now) classing.classes.of },
}

impl<'r> Closing<'r> {
    /// Joins the classes of two rows that the closure puts together, and that have two.
    fn join(&mut self, x: usize, y: usize)
        requires left { x < length (rows_of self.old.classing.rows.now.items) }
        requires right { y < length (rows_of self.old.classing.rows.now.items) }
        requires together { ∥ Closure (sheet_of self.old.classing.rows.now self.old.equations.now) x y ∥₁ }
        requires apart { at self.old.classing.classes.of x ≢ at self.old.classing.classes.of y }
        ensures rows { self.new.classing.rows ≡ self.old.classing.rows }
        ensures equations { self.new.equations ≡ self.old.equations }
        ensures labels { let n = length (rows_of self.old.classing.rows.now.items) in
            labels self.new.classing.classes.of n < labels self.old.classing.classes.of n }
    {
        self.classing.merge(x, y);
    }

    /// Joins the arguments of row `p` to those of its class's row, place by place, where there are equally many.
    fn join_arguments(&mut self, p: usize)
        requires { p < length (rows_of self.old.classing.rows.now.items) }
        ensures rows { self.new.classing.rows ≡ self.old.classing.rows }
        ensures equations { self.new.equations ≡ self.old.equations }
        ensures labels { let n = length (rows_of self.old.classing.rows.now.items) in
            labels self.new.classing.classes.of n ≤ labels self.old.classing.classes.of n }
    {
        let rows = self.classing.rows;
        let q = self.classing.classes.of(p);
        if rows.arity(p) != rows.arity(q) {
            return;
        }
        for (x, y) in rows.arguments(p).iter().zip(rows.arguments(q)) {
            let x = *x as usize;
            let y = *y as usize;
            if self.classing.classes.of(x) != self.classing.classes.of(y) {
                self.join(x, y);
            }
        }
    }

    /// Joins the arguments of each row, in one pass from the highest row down.
    fn pass_down(&mut self)
        ensures rows { self.new.classing.rows ≡ self.old.classing.rows }
        ensures equations { self.new.equations ≡ self.old.equations }
        ensures labels { let n = length (rows_of self.old.classing.rows.now.items) in
            labels self.new.classing.classes.of n ≤ labels self.old.classing.classes.of n }
    {
        for p in (0..self.classing.rows.len()).rev() {
            self.join_arguments(p);
        }
    }

    /// A composed row with another number of arguments than the row of its class, which is composed too.
    fn find_unequal(&self) -> Option<usize>
        ensures { let s = sheet_of self.now.classing.rows.now self.now.equations.now in
            let c = self.now.classing.classes.of in
            MatchOption result
            (Uniform s.rows (length s.rows) c)
            (λ p. Differ s.rows (length s.rows) c p (at c p)) }
    {
        let Classing { rows, classes } = self.classing;
        (0..rows.len()).find(|&p| classes.of(p) != p
            && rows.is_composed(p)
            && rows.arity(p) != rows.arity(classes.of(p)))
    }

    /// Joins the classes of arguments in one place until nothing is apart; each joining leaves one class less.
    pub fn close(&self) -> Result<Numbers, Unequal>
        ensures { JoinGives (sheet_of self.now.classing.rows.now self.now.equations.now) result }
    {
        let mut closed = *self;
        while let Some((x, y)) = closed.classing.find_apart() {
            closed.join(x, y);
            closed.pass_down();
        }
        match closed.find_unequal() {
            Some(p) => Err(Unequal {
                left: p as u16,
                right: closed.classing.classes.of(p) as u16,
            }),
            None => Ok(closed.classing.classes),
        }
    }
}
