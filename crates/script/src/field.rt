ghost use Rattle.std.specs.Prelude.{◌≡◌, ℕ, ◌≤◌, List, ◌∷◌, length, take, drop, IfOk, decimal, Decides, MatchOption, ◌≢◌};
ghost use Rattle.script.specs.Fields.{AllNumbers, Field, IsNumber, Parted, Plain, Solid, Split, fields};

use std::alloc::{AllocError, Global};
use std::str;

/// Where the first blank stands; the end, where there is none.
fn first_blank(bytes: &[u8]) -> usize
    ensures within { result ≤ length bytes.now }
    ensures solid { Solid (take result bytes.now) }
    ensures parted { Parted (drop result bytes.now) }
{
    bytes.iter().position(|b| *b == b' ').unwrap_or(bytes.len())
}

/// What stands before the first blank, and the rest from the blank on.
pub fn split_blank<'a>(bytes: &'a [u8]) -> (&'a [u8], &'a [u8])
    ensures { Split bytes.now result.0.now result.1.now }
{
    bytes.split_at(first_blank(bytes))
}

/// What stands behind a blank at the front.
pub fn after_blank<'a>(bytes: &'a [u8]) -> Option<&'a [u8]>
    ensures { MatchOption result ((rest : List ℕ) → bytes.now ≢ 32 ∷ rest) (λ x. bytes.now ≡ 32 ∷ x.now) }
{
    bytes.strip_prefix(b" ")
}

/// Whether there are bytes, with no sign and no needless zero in front.
fn is_plain(digits: &[u8]) -> bool
    ensures { Decides result (Plain digits.now) }
{
    !matches!(digits, [] | [b'+', ..] | [b'0', _, ..])
}

/// The number that the bytes are in decimal, with no leading zero: 0 to 65,535.
fn number(digits: &[u8]) -> Option<u16>
    ensures { MatchOption result ((n : ℕ) → IsNumber n → decimal n ≢ digits.now) (λ n. IsNumber n × (decimal n ≡ digits.now)) }
{
    if !is_plain(digits) {
        return None;
    }
    let Ok(text) = str::from_utf8(digits) else {
        return None;
    };
    text.parse::<u16>().ok()
}

/// The number of the first field, and what stands behind it; nothing where the bytes begin with no such field.
pub fn next_number<'a>(bytes: &'a [u8]) -> Option<(u16, &'a [u8])>
    ensures { MatchOption result ((n : ℕ) (rest : List ℕ) → Field bytes.now n rest → ⊥) (λ x. Field bytes.now x.0 x.1.now) }
{
    let field = after_blank(bytes)?;
    let (digits, rest) = split_blank(field);
    Some((number(digits)?, rest))
}

/// The numbers of fields, in their order.
pub fn numbers(heap: Global, bytes: &[u8]) -> Result<Vec<u16>, AllocError>
    ensures { IfOk result (λ v. (ns : List ℕ) → AllNumbers ns → bytes.now ≡ fields ns → v.items ≡ ns) }
{
    let mut read = Vec::new(heap);
    let mut left = bytes;
    while let Some((number, rest)) = next_number(left) {
        read.push(number)?;
        left = rest;
    }
    Ok(read)
}
