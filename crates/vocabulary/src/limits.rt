/// The most words of a vocabulary.
pub const MOST_WORDS: usize = 128;

/// The most arguments that a word takes.
pub const MOST_ARGUMENTS: u8 = 6;

/// The most characters of a spelling.
pub const LONGEST_SPELLING: usize = 16;
