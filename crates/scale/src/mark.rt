ghost use Rattle.std.specs.Prelude.{◌≤◌};

/// A mark: a whole number from 0, not alike at all, to 1,000, wholly alike. No other value exists.
#[derive(Clone, Copy, PartialEq, Eq, Debug)]
pub struct Mark {
    pub(crate) value: u16,
    ghost ok: { value ≤ 1000 },
}
