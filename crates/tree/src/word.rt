/// A word of a family tree.
#[derive(Clone, Copy)]
pub(crate) struct Word {
    pub(crate) arity: u8,
    /// The number of its parent; its own at a root.
    pub(crate) parent: u8,
    /// The code of its degree: how much it is alike to its parent.
    pub(crate) code: u16,
}
