ghost use Rattle.script.specs.Answers.{answer_line};
ghost use Rattle.std.specs.Prelude.{Some};

use fault::Fault;
use std::fmt;

/// What is answered to a line: each variant is one form of the printed line, so a Result within it would say nothing more.
#[derive(Clone, Copy, PartialEq, Eq, Debug)]
pub enum Answer {
    /// The row that was made, or that a row resolves to.
    Row(u16),
    /// It was done.
    Done,
    /// How many rows and equations there are.
    Mark(u16, u16),
    /// The degree, by its code.
    Degree(u16),
    /// It was refused, and nothing has changed.
    Refused(Fault),
    /// It is no line of a script.
    Unknown,
}

impl fmt::Display for Answer {
    ghost output = { λ a. Some (answer_line a) };

    /// Writes the answer as a line, without its end.
    fn fmt<W: fmt::Write>(&self, f: &mut fmt::Formatter<W>) -> fmt::Result {
        match self {
            Answer::Row(row) => write!(f, "row {row}"),
            Answer::Done => write!(f, "ok"),
            Answer::Mark(rows, equations) => write!(f, "mark {rows} {equations}"),
            Answer::Degree(code) => write!(f, "degree {code}"),
            Answer::Refused(fault) => write!(f, "{fault}"),
            Answer::Unknown => write!(f, "unknown line"),
        }
    }
}
