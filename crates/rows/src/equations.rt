ghost use Rattle.std.specs.Prelude.{◌<◌, ◌≤◌, length, MatchOption};
ghost use Rattle.fault.specs.Firsts.{Below};
ghost use Rattle.rows.specs.Stored.{Inside, Outside, equations_of};

use crate::limits::MOST_EQUATIONS;
use lists::List;

/// An equation between two rows.
#[derive(Clone, Copy, PartialEq, Eq, Debug)]
pub struct Equation {
    pub left: u16,
    pub right: u16,
}

/// Up to `MOST_EQUATIONS` equations, in the order in which they came.
pub type Equations = List<Equation, MOST_EQUATIONS>;

/// The first of the first `m` equations with a side that is not below `n`.
pub fn find_outside(equations: &Equations, m: usize, n: usize) -> Option<usize>
    requires { m ≤ length (equations_of equations.now) }
    ensures { MatchOption result (Below m (Inside (equations_of equations.now) n)) (λ i. (i < m) × Outside (equations_of equations.now) n i) }
{
    let first = &equations.as_slice()[..m];
    first
        .iter()
        .position(|e| e.left as usize >= n || e.right as usize >= n)
}
