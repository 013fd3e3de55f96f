ghost use Rattle.std.specs.Prelude.{◌≤◌};

/// A set of firmware lines 0 to 15 on which two words mean the same: the sum of 2^i over its lines i.
#[derive(Clone, Copy, PartialEq, Eq, Debug)]
pub struct Lines {
    pub(crate) set: u16,
    ghost ok: { set ≤ 65535 },
}
