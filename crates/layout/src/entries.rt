ghost use Rattle.std.specs.Prelude.{◌≡◌, ◌+◌, ◌^◌, ◌<◌, ◌≤◌, length, MatchOption, MatchResult};
ghost use Rattle.fault.specs.Firsts.{Below};
ghost use Rattle.layout.specs.Entries.{BadEntry, Differs, FirstSpelled, GoodEntry, Present};
ghost use Rattle.layout.specs.Forms.{BadForm, Headed};
ghost use Rattle.layout.specs.Places.{count_of, entry_end, entry_start, spelling_in};
ghost use Rattle.std.specs.Option.{option_map};

use crate::causes::{EntryFault, FormFault};
use vocabulary::{LONGEST_SPELLING, MOST_ARGUMENTS, same_spelling, spells};

/// Where the entry that begins at `at` ends, by the length that it has behind its arity.
pub fn entry_end(bytes: &[u8], at: usize) -> usize
    requires { at + 1 < length bytes.now }
    ensures value { result ≡ entry_end bytes.now at }
    ensures bound { result ≤ at + 257 }
{
    at + 2 + bytes[at + 1] as usize
}

// The loops here go from entry to entry: each carries the place that the last one gave. An iterator of our own over the entries would need
// its own laws, to say the same.

/// Where the entry of word `i` begins, or where the entries end.
pub fn locate(bytes: &[u8], i: u8) -> usize
    requires { Below i (Present bytes.now) }
    ensures { result ≡ entry_start bytes.now i }
{
    let mut at = 5;
    for _k in 0..i {
        at = entry_end(bytes, at);
    }
    at
}

/// The first of `count` words that is spelled `word`.
pub fn find(bytes: &[u8], count: u8, word: &[u8]) -> Option<u8>
    requires { Below count (Present bytes.now) }
    ensures { MatchOption result
        (Below count (Differs bytes.now word.now))
        (FirstSpelled bytes.now count word.now) }
{
    let mut at = 5;
    for i in 0..count {
        let end = entry_end(bytes, at);
        if same_spelling(&bytes[at + 2..end], word) {
            return Some(i);
        }
        at = end;
    }
    None
}

/// Where the entry of word `i` ends, which begins at `at`; refused where it is wrong.
fn entry(bytes: &[u8], i: u8, at: usize) -> Result<usize, EntryFault>
    requires below { Below i (GoodEntry bytes.now) }
    requires at_value { at ≡ entry_start bytes.now i }
    ensures { MatchResult result
        (λ end. GoodEntry bytes.now i × (end ≡ entry_end bytes.now at))
        (BadEntry bytes.now i) }
{
    let arity = *bytes.get(at).ok_or(EntryFault::Cut)?;
    if arity > MOST_ARGUMENTS {
        return Err(EntryFault::Arity);
    }
    let size = *bytes.get(at + 1).ok_or(EntryFault::Cut)? as usize;
    if size < 1 || size > LONGEST_SPELLING {
        return Err(EntryFault::Length);
    }
    let end = at + 2 + size;
    let word = bytes.get(at + 2..end).ok_or(EntryFault::Cut)?;
    if !spells(word) {
        return Err(EntryFault::Spelling);
    }
    match find(bytes, i, word) {
        Some(j) => Err(EntryFault::Repeated(j)),
        None => Ok(end),
    }
}

/// Where the entries of all words end; refused at the first that is wrong.
pub fn entries(bytes: &[u8]) -> Result<usize, FormFault>
    requires { Headed bytes.now }
    ensures { MatchResult result
        (λ end. Below (count_of bytes.now) (GoodEntry bytes.now) × (end ≡ entry_start bytes.now (count_of bytes.now)) × (end ≤ length bytes.now))
        (BadForm bytes.now) }
{
    let mut at = 5;
    for i in 0..bytes[4] {
        at = entry(bytes, i, at).map_err(|fault| FormFault::Entry(i, fault))?;
    }
    Ok(at)
}

/// Where the entry that begins at `at` ends, if the bytes hold its length.
fn end_if_there(bytes: &[u8], at: usize) -> Option<usize>
    requires { at < 2 ^ 32 }
    ensures { MatchOption result (length bytes.now ≤ at + 1)
        (λ end. (at + 1 < length bytes.now) × (end ≡ entry_end bytes.now at) × (end ≤ at + 257)) }
{
    if at + 1 >= bytes.len() {
        return None;
    }
    Some(entry_end(bytes, at))
}

/// The spelling in the entry of word `i`, if the bytes hold that entry to its end, whether it is right or not.
pub fn spelling_in(bytes: &[u8], i: u8) -> Option<&[u8]>
    ensures { option_map (λ x. x.now) result ≡ spelling_in bytes.now i }
{
    let mut at = 5;
    for _word in 0..i {
        at = end_if_there(bytes, at)?;
    }
    bytes.get(at + 2..end_if_there(bytes, at)?)
}
