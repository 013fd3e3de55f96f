ghost use Rattle.std.specs.Prelude.{◌≡◌, ◌+◌, ◌<◌, ◌≤◌, length, take, MatchOption, slice_index};
ghost use Rattle.fault.specs.Firsts.{Below, First1};
ghost use Rattle.table.specs.Calls.{BackGives, ComposeGives, KeptAmong, KeptOnErr, VariableGives};
ghost use Rattle.table.specs.Equating.{Between, Deep, DeepenAnswers, JoinAnswers};
ghost use Rattle.table.specs.Joining.{Uniform};
ghost use Rattle.table.specs.Sheets.{sheet_of};
ghost use Rattle.table.specs.Uniformity.{IsUniform};
ghost use Rattle.rows.specs.Limits.{most_arguments, most_equations, most_rows};
ghost use Rattle.rows.specs.Stored.{InSlots, args_of, at, depth_at, equation_of, equations_of, pair_of, row_of, rows_of};
ghost use Rattle.unification.specs.Closures.{IsDepth, Representative};
ghost use Rattle.unification.specs.Putting.{Unlabelled};
ghost use Rattle.unification.specs.Sheets.{At, Fits, IsCoherent, appended, equated, fresh, kept, variable};
ghost use Rattle.unification.specs.Tables.{Represents};
ghost use Rattle.std.proofs.Math.ListN.{get_elem?};
ghost use Rattle.std.proofs.Math.Option.{some};

use crate::causes::{BackFault, JoinFault, RowFault};
use crate::classing::Classing;
use crate::closing::Closing;
use crate::rebuilding::classes_of;
use rows::{
    Equation, Equations, LABELS, MOST_EQUATIONS, MOST_ROWS, Numbers, Row, Rows, SLOTS, find_outside,
};

/// A sheet of up to `MOST_ROWS` rows and up to `MOST_EQUATIONS` equations, with the representative of each row, which numbers its class, and the depth of each
/// class. The depths fall from a row to each row that it is above, so there is no cycle.
#[derive(Clone, Copy)]
pub struct Table {
    rows: Rows,
    equations: Equations,
    classes: Numbers,
    depths: Numbers,
    ghost coherent: { ∥ IsCoherent (sheet_of rows equations) ∥₁ },
    ghost represents: { ∥ Represents (sheet_of rows equations) (at classes.of) ∥₁ },
    ghost falls: { IsDepth (sheet_of rows equations) (depth_at classes.of depths.of) },
    ghost within: { Below (length (rows_of rows.items)) (λ p. at classes.of p < length (rows_of rows.items)) },
    ghost shallow: { Below (length (rows_of rows.items)) (λ p. depth_at classes.of depths.of p ≤ length (rows_of rows.items)) },
}

impl Table {
    /// The table of a fresh sheet.
    pub fn new() -> Self
        ensures sheet { sheet_of result.rows result.equations ≡ fresh }
        ensures uniform { IsUniform result.rows result.equations result.classes }
    {
        Table {
            rows: Rows::none(),
            equations: Equations::new(Equation { left: 0, right: 0 }),
            classes: Numbers::zeros(),
            depths: Numbers::zeros(),
        }
    }

    /// How many rows there are.
    pub fn row_count(&self) -> u16
        ensures { result ≡ length (sheet_of self.now.rows self.now.equations).rows }
    {
        self.rows.len() as u16
    }

    /// How many equations there are.
    pub fn equation_count(&self) -> u16
        ensures { result ≡ length (sheet_of self.now.rows self.now.equations).equations }
    {
        self.equations.len() as u16
    }

    /// Row `p`; nothing where there is none.
    pub fn row(&self, p: u16) -> Option<Row>
        ensures { MatchOption result (length (sheet_of self.now.rows self.now.equations).rows ≤ p) (λ x. At (sheet_of self.now.rows self.now.equations) p (row_of x)) }
    {
        let row = self.rows.as_slice().get(p as usize)?;
        Some(*row)
    }

    /// The representative of row `p`; nothing where there is no such row.
    pub fn representative(&self, p: u16) -> Option<u16>
        ensures { MatchOption result (length (sheet_of self.now.rows self.now.equations).rows ≤ p) (λ q. (p < length (sheet_of self.now.rows self.now.equations).rows) × Representative (sheet_of self.now.rows self.now.equations) q p) }
    {
        if p as usize >= self.rows.len() {
            return None;
        }
        Some(self.classes.of(p as usize) as u16)
    }

    /// The class of each row, numbered by its representative.
    pub fn classes(&self) -> &Numbers
        ensures value { result.now ≡ self.now.classes }
        ensures represents { Represents (sheet_of self.now.rows self.now.equations) (at result.now.of) }
    {
        &self.classes
    }

    /// The words of row `p` and of the row that numbers its class, where both are composed rows.
    pub fn words_at(&self, classes: &Numbers, p: u16) -> Option<(u16, u16)>
        ensures { result ≡ pair_of (get_elem? (sheet_of self.now.rows self.now.equations).rows p) (get_elem? (sheet_of self.now.rows self.now.equations).rows (at classes.now.of p)) }
    {
        let word = self.rows.word(p as usize)?;
        let chief = self.rows.word(classes.of(p as usize))?;
        Some((word, chief))
    }

    /// The place of the label's row among the rows; nothing where it has none.
    fn find_variable(&self, label: u16) -> Option<usize>
        ensures { MatchOption result (Unlabelled (sheet_of self.now.rows self.now.equations) label) (λ p. (p < length (rows_of self.now.rows.items)) × At (sheet_of self.now.rows self.now.equations) p (variable label)) }
    {
        self.rows
            .as_slice()
            .iter()
            .position(|row| row.is_variable(label))
    }

    /// The row of the label; nothing where it has none.
    pub fn row_of(&self, label: u16) -> Option<u16>
        ensures { MatchOption result (Unlabelled (sheet_of self.now.rows self.now.equations) label) (λ p. At (sheet_of self.now.rows self.now.equations) p (variable label)) }
    {
        let p = self.find_variable(label)?;
        Some(p as u16)
    }

    /// One more row, after the last, with its depth.
    fn push(&mut self, row: Row, depth: u16)
        requires room { length (rows_of self.old.rows.items) < most_rows }
        requires slots { InSlots row }
        requires fits { Fits (sheet_of self.old.rows self.old.equations) (row_of row) }
        requires above { Below (length (args_of (some (row_of row)))) (λ i. depth_at self.old.classes.of self.old.depths.of (slice_index (args_of (some (row_of row))) i) < depth) }
        requires shallow { depth ≤ length (rows_of self.old.rows.items) + 1 }
        ensures sheet { sheet_of self.new.rows self.new.equations ≡ appended (sheet_of self.old.rows self.old.equations) (row_of row) }
        ensures uniform { IsUniform self.old.rows self.old.equations self.old.classes → IsUniform self.new.rows self.new.equations self.new.classes }
    {
        let n = self.rows.len();
        self.rows.push(row);
        self.classes.put(n, n as u16);
        self.depths.put(n, depth);
    }

    /// The row of the label, which is new where it had none.
    pub fn variable(&mut self, label: u16) -> Result<u16, RowFault>
        ensures answer { VariableGives (sheet_of self.old.rows self.old.equations) label result (sheet_of self.new.rows self.new.equations) }
        ensures kept { KeptOnErr result self.old self.new }
        ensures uniform { IsUniform self.old.rows self.old.equations self.old.classes → IsUniform self.new.rows self.new.equations self.new.classes }
    {
        if label >= LABELS {
            return Err(RowFault::Label);
        }
        if let Some(p) = self.row_of(label) {
            return Ok(p);
        }
        let n = self.rows.len();
        if n >= MOST_ROWS {
            return Err(RowFault::Full);
        }
        self.push(Row::Variable(label), 0);
        Ok(n as u16)
    }

    /// The depth of row `p`.
    fn depth_of(&self, p: usize) -> usize
        requires { p < length (rows_of self.now.rows.items) }
        ensures value { result ≡ depth_at self.now.classes.of self.now.depths.of p }
        ensures bound { result ≤ length (rows_of self.now.rows.items) }
    {
        self.depths.of(self.classes.of(p))
    }

    /// A depth above those of the rows.
    fn depth_above(&self, rows: &[u16]) -> u16
        requires { Below (length rows.now) (λ i. slice_index rows.now i < length (rows_of self.now.rows.items)) }
        ensures above { Below (length rows.now) (λ i. depth_at self.now.classes.of self.now.depths.of (slice_index rows.now i) < result) }
        ensures shallow { result ≤ length (rows_of self.now.rows.items) + 1 }
    {
        let mut above = 0;
        for p in rows {
            above = above.max(self.depth_of(*p as usize) + 1);
        }
        above as u16
    }

    /// A new row of the word and the rows of its arguments.
    pub fn compose(&mut self, word: u16, rows: &[u16]) -> Result<u16, RowFault>
        ensures answer { ComposeGives (sheet_of self.old.rows self.old.equations) word rows.now result (sheet_of self.new.rows self.new.equations) }
        ensures kept { KeptOnErr result self.old self.new }
        ensures uniform { IsUniform self.old.rows self.old.equations self.old.classes → IsUniform self.new.rows self.new.equations self.new.classes }
    {
        if rows.len() > SLOTS {
            return Err(RowFault::TooMany);
        }
        let n = self.rows.len();
        if let Some(i) = first_missing(rows, n) {
            return Err(RowFault::Missing(i as u16));
        }
        if n >= MOST_ROWS {
            return Err(RowFault::Full);
        }
        let depth = self.depth_above(rows);
        self.push(Row::Composed(word, rows.len() as u8, slots(rows)), depth);
        Ok(n as u16)
    }

    /// The class of each row with one more equation, numbered by its representative. The table stays as it is.
    pub fn join(&self, e: Equation) -> Result<Numbers, JoinFault>
        ensures { JoinAnswers (sheet_of self.now.rows self.now.equations) (equation_of e) result }
    {
        let n = self.rows.len();
        if e.left as usize >= n {
            return Err(JoinFault::Missing(0));
        }
        if e.right as usize >= n {
            return Err(JoinFault::Missing(1));
        }
        if self.equations.len() >= MOST_EQUATIONS {
            return Err(JoinFault::Full);
        }
        let mut equations = self.equations;
        equations.push(e);
        let mut classing = Classing {
            rows: &self.rows,
            classes: self.classes,
        };
        classing.merge(e.left as usize, e.right as usize);
        let closing = Closing {
            classing,
            equations: &equations,
        };
        let classes = closing.close()?;
        Ok(classes)
    }

    /// The depth of each class with one more equation, whose classes are these; nothing where there is a cycle.
    pub fn deepen(&self, e: Equation, classes: &Numbers) -> Option<Numbers>
        requires between { Between (sheet_of self.now.rows self.now.equations) (equation_of e) }
        requires represents { Represents (equated (sheet_of self.now.rows self.now.equations) (equation_of e)) (at classes.now.of) }
        requires uniform { Uniform (sheet_of self.now.rows self.now.equations).rows (length (sheet_of self.now.rows self.now.equations).rows) classes.now.of }
        ensures { DeepenAnswers (equated (sheet_of self.now.rows self.now.equations) (equation_of e)) classes.now.of result }
    {
        let classing = Classing {
            rows: &self.rows,
            classes: *classes,
        };
        classing.deepen().ok()
    }

    /// Puts the equation at the end of the others, with the classes and depths that it makes.
    pub fn commit(&mut self, e: Equation, classes: &Numbers, depths: &Numbers)
        requires between { Between (sheet_of self.old.rows self.old.equations) (equation_of e) }
        requires room { length (sheet_of self.old.rows self.old.equations).equations < most_equations }
        requires represents { Represents (equated (sheet_of self.old.rows self.old.equations) (equation_of e)) (at classes.now.of) }
        requires deep { Deep (equated (sheet_of self.old.rows self.old.equations) (equation_of e)) classes.now.of depths.now.of }
        ensures sheet { sheet_of self.new.rows self.new.equations ≡ equated (sheet_of self.old.rows self.old.equations) (equation_of e) }
        ensures uniform { Uniform (sheet_of self.old.rows self.old.equations).rows (length (sheet_of self.old.rows self.old.equations).rows) classes.now.of → IsUniform self.new.rows self.new.equations self.new.classes }
    {
        self.equations.push(e);
        self.classes = *classes;
        self.depths = *depths;
    }

    /// The table of the first `n` rows and the first `m` equations.
    fn first(&self, n: usize, m: usize) -> Table
        requires rows { n ≤ length (rows_of self.now.rows.items) }
        requires equations { m ≤ length (equations_of self.now.equations) }
        requires among { KeptAmong (sheet_of self.now.rows self.now.equations) n m }
        requires uniform { IsUniform self.now.rows self.now.equations self.now.classes }
        ensures sheet { sheet_of result.rows result.equations ≡ kept n m (sheet_of self.now.rows self.now.equations) }
        ensures uniform { IsUniform result.rows result.equations result.classes }
    {
        let mut rows = self.rows;
        rows.cut(n);
        let mut equations = self.equations;
        equations.truncate(m);
        let classes = classes_of(&rows, &equations);
        let classing = Classing {
            rows: &rows,
            classes,
        };
        let depths = classing.deepen().unwrap();
        Table {
            rows,
            equations,
            classes,
            depths,
        }
    }

    /// Goes back to the first `rows` rows and the first `equations` equations.
    pub fn back(&mut self, rows: u16, equations: u16) -> Result<(), BackFault>
        requires { IsUniform self.old.rows self.old.equations self.old.classes }
        ensures answer { BackGives (sheet_of self.old.rows self.old.equations) rows equations result (sheet_of self.new.rows self.new.equations) }
        ensures kept { KeptOnErr result self.old self.new }
        ensures uniform { IsUniform self.new.rows self.new.equations self.new.classes }
    {
        let n = rows as usize;
        let m = equations as usize;
        if n > self.rows.len() {
            return Err(BackFault::Rows);
        }
        if m > self.equations.len() {
            return Err(BackFault::Equations);
        }
        if find_outside(&self.equations, m, n).is_some() {
            return Err(BackFault::Dropped);
        }
        *self = self.first(n, m);
        Ok(())
    }
}

/// The position of the first number that is not below `n`.
fn first_missing(rows: &[u16], n: usize) -> Option<usize>
    ensures { MatchOption result (Below (length rows.now) (λ k. slice_index rows.now k < n)) (First1 (length rows.now) (λ k. slice_index rows.now k < n)) }
{
    rows.iter().position(|p| *p as usize >= n)
}

/// The numbers, and then zeros in the other slots.
fn slots(rows: &[u16]) -> [u16; SLOTS]
    requires { length rows.now ≤ most_arguments }
    ensures size { length result ≡ most_arguments }
    ensures items { take (length rows.now) result ≡ rows.now }
{
    let mut slots = [0; SLOTS];
    slots[..rows.len()].copy_from_slice(rows);
    slots
}
