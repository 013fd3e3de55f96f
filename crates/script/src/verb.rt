ghost use Rattle.script.specs.Verbs.{spelled};
ghost use Rattle.script.specs.declared.verb.Verb.{Verb};
ghost use Rattle.std.specs.Prelude.{◌≡◌, MatchOption, ◌≢◌};

/// What a line asks for, by its first word.
#[derive(Clone, Copy)]
pub enum Verb {
    Variable,
    Compose,
    Read,
    Equate,
    Back,
    Mark,
    Degree,
    Resolve,
}

impl Verb {
    /// The verb that is written so.
    pub fn named(word: &[u8]) -> Option<Verb>
        ensures { MatchOption result ((v : Verb) → word.now ≢ spelled v) (λ v. word.now ≡ spelled v) }
    {
        match word {
            b"variable" => Some(Verb::Variable),
            b"compose" => Some(Verb::Compose),
            b"read" => Some(Verb::Read),
            b"equate" => Some(Verb::Equate),
            b"back" => Some(Verb::Back),
            b"mark" => Some(Verb::Mark),
            b"degree" => Some(Verb::Degree),
            b"resolve" => Some(Verb::Resolve),
            _ => None,
        }
    }
}
