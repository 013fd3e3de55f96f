/// A call on a sheet. A text that is to be read brings its lexicon. Texts and lexicons may be lent for longer than rows.
#[derive_where(Clone, Copy)]
pub enum Call<'t, 'r, L> {
    /// The row of a label.
    Variable(u16),
    /// A new row of a word and the rows of its arguments.
    Compose(u16, &'r [u16]),
    /// The row of a text.
    Read(&'t [u8], &'t L),
    /// One more equation between two rows.
    Equate(u16, u16),
    /// Back to the first rows and the first equations, so many of each.
    Back(u16, u16),
    /// How many rows and how many equations there are.
    Mark,
    /// The sheet's degree.
    Degree,
    /// The representative of a row.
    Resolve(u16),
}

/// What a call that was carried out answers.
#[derive(Clone, Copy, PartialEq, Eq, Debug)]
pub enum Answer<D> {
    /// A row.
    Row(u16),
    /// Nothing but that it was done.
    Done,
    /// The rows and the equations.
    Marked(u16, u16),
    /// A degree.
    Degree(D),
}
