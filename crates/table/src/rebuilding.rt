ghost use Rattle.std.specs.Prelude.{◌≡◌, ℕ, length};
ghost use Rattle.table.specs.Joining.{Uniform, Unlike};
ghost use Rattle.table.specs.Sheets.{sheet_of};
ghost use Rattle.rows.specs.Stored.{at};
ghost use Rattle.unification.specs.Sheets.{IsCoherent};
ghost use Rattle.unification.specs.Tables.{Represents};

use crate::classing::Classing;
use crate::closing::Closing;
use rows::{Equations, Numbers, Rows};

/// Each row in a class of its own, and then both sides of each equation in one.
fn join_sides<'r>(rows: &'r Rows, equations: &'r Equations) -> Closing<'r>
    requires { ∥ IsCoherent (sheet_of rows.now equations.now) ∥₁ }
    ensures rows { result.classing.rows.now ≡ rows.now }
    ensures equations { result.equations.now ≡ equations.now }
{
    let mut classing = Classing {
        rows,
        classes: Numbers::own(),
    };
    for e in equations.as_slice() {
        classing.merge(e.left as usize, e.right as usize);
    }
    Closing {
        classing,
        equations,
    }
}

/// The class of each row, from the equations alone, where composed rows in the closure have equally many arguments.
pub fn classes_of(rows: &Rows, equations: &Equations) -> Numbers
    requires coherent { ∥ IsCoherent (sheet_of rows.now equations.now) ∥₁ }
    requires like { (p q : ℕ) → Unlike (sheet_of rows.now equations.now) p q → ⊥ }
    ensures represents { Represents (sheet_of rows.now equations.now) (at result.of) }
    ensures uniform { Uniform (sheet_of rows.now equations.now).rows (length (sheet_of rows.now equations.now).rows) result.of }
{
    join_sides(rows, equations).close().unwrap()
}
