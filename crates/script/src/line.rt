ghost use Rattle.std.specs.Prelude.{◌≡◌, ℕ, List, [], ◌∷◌, Decides, MatchOption, ◌≢◌};
ghost use Rattle.script.specs.Fields.{AllNumbers, Rows, fields};
ghost use Rattle.script.specs.Lines.{Follows, Found, Parsed};
ghost use Rattle.script.specs.declared.verb.Verb.TheVariants.{Compose as to_compose};

use crate::field::{after_blank, next_number, split_blank};
use crate::verb::Verb;

/// A line of a script: what it asks for.
#[derive(Clone, Copy, PartialEq, Eq, Debug)]
pub enum Line<'a> {
    /// `variable LABEL`
    Variable(u16),
    /// `compose WORD ROW ..`: the word, and the fields of the rows, each behind its blank.
    Compose(u16, &'a [u8]),
    /// `read TEXT`
    Read(&'a [u8]),
    /// `equate ROW ROW`
    Equate(u16, u16),
    /// `back ROWS EQUATIONS`
    Back(u16, u16),
    /// `mark`
    Mark,
    /// `degree`
    Degree,
    /// `resolve ROW`
    Resolve(u16),
}

/// The number of a lone field.
fn one_number(bytes: &[u8]) -> Option<u16>
    ensures { MatchOption result ((n : ℕ) → AllNumbers (n ∷ []) → bytes.now ≢ fields (n ∷ [])) (λ n. AllNumbers (n ∷ []) × (bytes.now ≡ fields (n ∷ []))) }
{
    let (n, rest) = next_number(bytes)?;
    if rest.is_empty() { Some(n) } else { None }
}

/// The numbers of two fields.
fn two_numbers(bytes: &[u8]) -> Option<(u16, u16)>
    ensures { MatchOption result ((m n : ℕ) → AllNumbers (m ∷ n ∷ []) → bytes.now ≢ fields (m ∷ n ∷ [])) (λ x. AllNumbers (x.0 ∷ x.1 ∷ []) × (bytes.now ≡ fields (x.0 ∷ x.1 ∷ []))) }
{
    let (m, rest) = next_number(bytes)?;
    Some((m, one_number(rest)?))
}

/// Whether the bytes are fields of numbers, however many.
fn are_numbers(bytes: &[u8]) -> bool
    ensures { Decides result (Rows bytes.now) }
{
    let mut left = bytes;
    while !left.is_empty() {
        let Some((_, rest)) = next_number(left) else {
            return false;
        };
        left = rest;
    }
    true
}

/// The line of a word and rows, by what stands behind its verb.
fn compose_line<'a>(rest: &'a [u8]) -> Option<Line<'a>>
    ensures { Found (Follows to_compose rest.now) result }
{
    let (word, rows) = next_number(rest)?;
    if are_numbers(rows) {
        Some(Line::Compose(word, rows))
    } else {
        None
    }
}

/// The line of a verb, by what stands behind the verb.
fn line_of<'a>(verb: Verb, rest: &'a [u8]) -> Option<Line<'a>>
    ensures { Found (Follows verb rest.now) result }
{
    // no table of closures: the verbs take different fields, and the arms are shorter
    match verb {
        Verb::Variable => Some(Line::Variable(one_number(rest)?)),
        Verb::Compose => compose_line(rest),
        Verb::Read => Some(Line::Read(after_blank(rest)?)),
        Verb::Equate => {
            let (p, q) = two_numbers(rest)?;
            Some(Line::Equate(p, q))
        }
        Verb::Back => {
            let (rows, equations) = two_numbers(rest)?;
            Some(Line::Back(rows, equations))
        }
        Verb::Mark => rest.is_empty().then_some(Line::Mark),
        Verb::Degree => rest.is_empty().then_some(Line::Degree),
        Verb::Resolve => Some(Line::Resolve(one_number(rest)?)),
    }
}

/// What a line asks for; nothing where it is no line of a script.
pub fn parse_line<'a>(line: &'a [u8]) -> Option<Line<'a>>
    ensures { Parsed line.now result }
{
    let (word, rest) = split_blank(line);
    line_of(Verb::named(word)?, rest)
}
