ghost use Rattle.std.specs.Prelude.{◌≡◌, ◌≤◌, length};
ghost use Rattle.text.specs.Limits.{longest_text};

/// A text of at most 4,096 bytes. A place in it is a number up to that of its bytes: each call asks so much, as an index does.
#[derive(Clone, Copy)]
pub struct Source<'a> {
    pub(crate) bytes: &'a [u8],
    ghost short: { length bytes.now ≤ longest_text },
}

impl<'a> Source<'a> {
    /// The text that these bytes are.
    pub fn new(bytes: &'a [u8]) -> Source<'a>
        requires { length bytes.now ≤ longest_text }
        ensures { result.bytes.now ≡ bytes.now }
    {
        Source { bytes }
    }
}
