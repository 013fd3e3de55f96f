/// A part of a text.
#[derive(Clone, Copy, PartialEq, Eq, Debug)]
pub enum Token<'a> {
    /// A word, by its characters in the text.
    Word(&'a [u8]),
    /// `(`
    Open,
    /// `)`
    Close,
    /// `,`
    Comma,
    /// `?` and a label.
    Variable(u8),
}

/// The byte, or the end, with which the text cannot go on.
#[derive(Clone, Copy, PartialEq, Eq, Debug)]
pub struct SyntaxFault {
    pub place: u32,
}
