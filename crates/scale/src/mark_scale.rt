ghost use Rattle.scale.specs.Degrees.{mark_operations};
ghost use Rattle.scale.specs.Laws.{mark_laws};
ghost use Rattle.std.specs.Prelude.{refl};

use crate::mark::Mark;
use crate::scale::Scale;

impl Scale for Mark {
    ghost operations = { mark_operations };

    ghost lawful = { mark_laws };

    ghost equal = { λ _ _. refl };

    fn top() -> Mark {
        Mark { value: 1000 }
    }

    fn bottom() -> Mark {
        Mark { value: 0 }
    }

    /// The smaller mark.
    fn meet(self, other: Mark) -> Mark {
        Mark {
            value: self.value.min(other.value),
        }
    }

    fn from_code(code: u16) -> Option<Mark> {
        if code > 1000 {
            return None;
        }
        Some(Mark { value: code })
    }
}
