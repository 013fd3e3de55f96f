use vocabulary::MOST_ARGUMENTS;

/// The most rows of a sheet.
pub const MOST_ROWS: usize = 512;

/// The most equations of a sheet.
pub const MOST_EQUATIONS: usize = 128;

/// The number of labels: a label is 0 or more, and below this.
pub const LABELS: u16 = 100;

/// The slots of a composed row, one for each argument that a word can have.
pub const SLOTS: usize = MOST_ARGUMENTS as usize;
