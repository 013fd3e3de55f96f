ghost use Rattle.std.specs.Prelude.{◌≡◌, Decides};
ghost use Rattle.vocabulary.specs.Spellings.{SameSpelling, Signs, fits};

/// Whether the byte may stand at place `k` of a spelling.
fn may_stand(k: usize, byte: u8) -> bool
    ensures { result ≡ fits k byte }
{
    byte.is_ascii_lowercase() || k > 0 && (byte.is_ascii_digit() || byte == b'-')
}

/// Whether each byte may stand at its place of a spelling, however many there are.
pub fn spells(word: &[u8]) -> bool
    ensures { Decides result (Signs word.now) }
{
    word.iter().enumerate().all(|(k, byte)| may_stand(k, *byte))
}

/// Whether the two spellings are the same.
pub fn same_spelling(one: &[u8], other: &[u8]) -> bool
    ensures { Decides result (SameSpelling one.now other.now) }
{
    one == other
}
