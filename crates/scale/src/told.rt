ghost use Rattle.scale.specs.Told.{lines_text, mark_text};
ghost use Rattle.std.specs.Prelude.{Some};

use crate::lines::Lines;
use crate::mark::Mark;
use std::fmt;

impl fmt::Display for Mark {
    ghost output = { λ m. Some (mark_text m.value) };

    /// Writes the mark as a number.
    fn fmt<W: fmt::Write>(&self, f: &mut fmt::Formatter<W>) -> fmt::Result {
        write!(f, "{}", self.value)
    }
}

impl fmt::Display for Lines {
    ghost output = { λ l. Some (lines_text l.set) };

    /// Writes the lines of the set, by rising number.
    fn fmt<W: fmt::Write>(&self, f: &mut fmt::Formatter<W>) -> fmt::Result {
        f.write_str("lines")?;
        for line in 0..16u16 {
            if (self.set >> line) % 2 == 1 {
                write!(f, " {line}")?;
            }
        }
        Ok(())
    }
}
