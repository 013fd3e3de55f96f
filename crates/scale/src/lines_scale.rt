ghost use Rattle.scale.specs.Degrees.{line_operations};
ghost use Rattle.scale.specs.Laws.{line_laws};
ghost use Rattle.std.specs.Prelude.{refl};

use crate::lines::Lines;
use crate::scale::Scale;

impl Scale for Lines {
    ghost operations = { line_operations };

    ghost lawful = { line_laws };

    ghost equal = { λ _ _. refl };

    fn top() -> Lines {
        Lines { set: 65535 }
    }

    fn bottom() -> Lines {
        Lines { set: 0 }
    }

    /// The lines in both sets.
    fn meet(self, other: Lines) -> Lines {
        Lines {
            set: self.set & other.set,
        }
    }

    fn from_code(code: u16) -> Option<Lines> {
        Some(Lines { set: code })
    }
}
