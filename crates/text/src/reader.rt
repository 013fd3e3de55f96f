ghost use Rattle.std.specs.Prelude.{◌+◌, ◌<◌, ◌≤◌, length, MatchResult};
ghost use Rattle.text.specs.Course.{ArgumentsStop, ArgumentsTo, PhraseStops, PhraseTo};
ghost use Rattle.text.specs.Texts.{IsText, StopsAt};

use crate::source::Source;
use crate::token::{SyntaxFault, Token};

impl Source<'_> {
    /// Where the term that begins at the place ends.
    #[cycle(read_arguments_read_term)]
    fn read_term(&self, at: usize) -> Result<usize, SyntaxFault>
        requires { at ≤ length self.now.bytes.now }
        ensures { MatchResult result (PhraseTo self.now.bytes.now at) (λ f. PhraseStops self.now.bytes.now at f.place) }
    {
        let (token, end) = self.lex(at)?;
        match token {
            Token::Variable(_) => Ok(end),
            Token::Word(_) => match self.lex(end) {
                Ok((Token::Open, _)) => self.read_arguments(end),
                _ => Ok(end),
            },
            _ => Err(self.stray(at)),
        }
    }

    /// Where the arguments end whose `(` or `,` stands at the place: behind their `)`.
    #[cycle(read_arguments_read_term)]
    fn read_arguments(&self, at: usize) -> Result<usize, SyntaxFault>
        requires { at < length self.now.bytes.now }
        ensures { MatchResult result (ArgumentsTo self.now.bytes.now at) (λ f. ArgumentsStop self.now.bytes.now at f.place) }
    {
        let mut mark = at;
        loop {
            let end = self.read_term(mark + 1)?;
            match self.lex(end) {
                Ok((Token::Comma, _)) => mark = end,
                Ok((Token::Close, behind)) => return Ok(behind),
                _ => return Err(self.stray(end)),
            }
        }
    }

    /// Whether the bytes are a text by the grammar alone.
    pub(crate) fn check_grammar(&self) -> Result<(), SyntaxFault>
        ensures { MatchResult result (λ _. IsText self.now.bytes.now) (λ f. StopsAt self.now.bytes.now f.place) }
    {
        let end = self.read_term(0)?;
        if end < self.bytes.len() {
            Err(self.stray(end))
        } else {
            Ok(())
        }
    }
}
