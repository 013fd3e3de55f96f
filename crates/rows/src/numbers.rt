ghost use Rattle.std.specs.Prelude.{◌≡◌, ◌<◌, map, length, slice_index, slice_set};
ghost use Rattle.fault.specs.Firsts.{Below};
ghost use Rattle.rows.specs.Labels.{renamed};
ghost use Rattle.rows.specs.Limits.{most_rows};

use crate::limits::MOST_ROWS;
use std::array;

/// A number for each row.
#[derive(Clone, Copy)]
pub struct Numbers {
    of: [u16; MOST_ROWS],
    ghost size: { length of ≡ most_rows },
}

impl Numbers {
    /// Each row's number is 0.
    pub fn zeros() -> Self
        ensures { Below most_rows (λ p. slice_index result.of p ≡ 0) }
    {
        Numbers { of: [0; MOST_ROWS] }
    }

    /// Each row's number is its own.
    pub fn own() -> Self
        ensures { Below most_rows (λ p. slice_index result.of p ≡ p) }
    {
        Numbers {
            of: array::from_fn(|p| p as u16),
        }
    }

    /// The number of row `p`.
    pub fn of(&self, p: usize) -> usize
        requires { p < most_rows }
        ensures { result ≡ slice_index self.now.of p }
    {
        self.of[p] as usize
    }

    /// Gives row `p` the number `x`.
    pub fn put(&mut self, p: usize, x: u16)
        requires { p < most_rows }
        ensures { self.new.of ≡ slice_set self.old.of p x }
    {
        self.of[p] = x;
    }

    /// Writes `keep` wherever the number is `gone`.
    pub fn rename(&mut self, gone: u16, keep: u16)
        ensures { self.new.of ≡ map (renamed gone keep) self.old.of }
    {
        for x in self.of.iter_mut() {
            if *x == gone {
                *x = keep;
            }
        }
    }
}
