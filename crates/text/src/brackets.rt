ghost use Rattle.fault.specs.Firsts.{Below, First1};
ghost use Rattle.text.specs.Brackets.{Shallow};
ghost use Rattle.std.specs.Prelude.{length, MatchOption};

use crate::source::Source;

/// The most brackets that may be open at once.
pub const DEEPEST: usize = 31;

impl Source<'_> {
    /// The first `(` with which more than 31 brackets are open.
    pub(crate) fn too_deep(&self) -> Option<usize>
        ensures { MatchOption result
            (Below (length self.now.bytes.now) (Shallow self.now.bytes.now))
            (First1 (length self.now.bytes.now) (Shallow self.now.bytes.now)) }
    {
        let mut opened: usize = 0;
        let mut closed: usize = 0;
        for (i, byte) in self.bytes.iter().enumerate() {
            match *byte {
                b'(' => {
                    opened += 1;
                    if opened > closed + DEEPEST {
                        return Some(i);
                    }
                }
                b')' => closed += 1,
                _ => {}
            }
        }
        None
    }
}
