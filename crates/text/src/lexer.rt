ghost use Rattle.std.specs.Prelude.{◌≡◌, ◌+◌, ◌<◌, ◌≤◌, ◌∷◌, length, drop, MatchOption, MatchResult, slice_index};
ghost use Rattle.text.specs.Tokens.{Lexed, NoToken, Stop, digit, in_word, word_rest};

use crate::source::Source;
use crate::token::{SyntaxFault, Token};
use vocabulary::LONGEST_SPELLING;

/// Whether a word may go on with the byte.
fn goes_on(byte: u8) -> bool
    ensures { result ≡ in_word byte }
{
    matches!(byte, b'a'..=b'z' | b'0'..=b'9' | b'-')
}

/// How many of the bytes a word goes on with: 15 at most.
fn word_rest(bytes: &[u8]) -> usize
    ensures is { result ≡ word_rest bytes.now }
    ensures within { result ≤ length bytes.now }
{
    bytes
        .iter()
        .take(LONGEST_SPELLING - 1)
        .take_while(|byte| goes_on(**byte))
        .count()
}

impl<'a> Source<'a> {
    /// The fault at the place.
    pub(crate) fn stray(&self, place: usize) -> SyntaxFault
        requires { place ≤ length self.now.bytes.now }
        ensures { result.place ≡ place }
    {
        SyntaxFault {
            place: place as u32,
        }
    }

    /// The value of the digit that stands at the place, if one does.
    fn digit(&self, at: usize) -> Option<u8>
        ensures { MatchOption result
            (Stop digit (drop at self.now.bytes.now))
            (λ d. (d < 10) × (at < length self.now.bytes.now) × (drop at self.now.bytes.now ≡ (48 + d) ∷ drop (at + 1) self.now.bytes.now)) }
    {
        let byte = *self.bytes.get(at)?;
        if byte.is_ascii_digit() {
            Some(byte - b'0')
        } else {
            None
        }
    }

    /// The variable whose `?` stands at the place, and where it ends.
    fn lex_variable(&self, at: usize) -> Result<(Token<'a>, usize), SyntaxFault>
        requires within { at < length self.now.bytes.now }
        requires mark { slice_index self.now.bytes.now at ≡ 63 }
        ensures { MatchResult result (Lexed self.now.bytes.now at) (NoToken self.now.bytes.now at) }
    {
        let tens = self.digit(at + 1).ok_or(self.stray(at + 1))?;
        match self.digit(at + 2) {
            // no digit follows a leading zero
            Some(units) if tens > 0 => Ok((Token::Variable(tens * 10 + units), at + 3)),
            _ => Ok((Token::Variable(tens), at + 2)),
        }
    }

    /// The token that begins at the place, as long as it can be, and where it ends.
    pub(crate) fn lex(&self, at: usize) -> Result<(Token<'a>, usize), SyntaxFault>
        requires { at ≤ length self.now.bytes.now }
        ensures { MatchResult result (Lexed self.now.bytes.now at) (NoToken self.now.bytes.now at) }
    {
        let first = *self.bytes.get(at).ok_or(self.stray(at))?;
        match first {
            b'(' => Ok((Token::Open, at + 1)),
            b')' => Ok((Token::Close, at + 1)),
            b',' => Ok((Token::Comma, at + 1)),
            b'?' => self.lex_variable(at),
            b'a'..=b'z' => {
                let end = at + 1 + word_rest(&self.bytes[at + 1..]);
                Ok((Token::Word(&self.bytes[at..end]), end))
            }
            _ => Err(self.stray(at)),
        }
    }
}
