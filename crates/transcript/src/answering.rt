use crate::asking::call_of;
use crate::outcome::told;
use scale::Coded;
use script::{Answer, Line, numbers, parse_line};
use sheet::{Call, SheetFault, replay};
use std::alloc::{AllocError, Global};
use vocabulary::{Lexicon, Vocabulary};

/// The lines of a script, parted by line ends; an empty last line is none. Nothing stands for a line that asks for nothing.
pub fn lines_of<'t>(heap: Global, script: &'t [u8]) -> Result<Vec<Option<Line<'t>>>, AllocError> {
    // room for just these lines: pushing alone takes up to twice as much
    let count = script.split_inclusive(|b| *b == b'\n').count();
    let mut lines = Vec::with_capacity(heap, count)?;
    for line in script.split_inclusive(|b| *b == b'\n') {
        lines.push(parse_line(line.strip_suffix(b"\n").unwrap_or(line)))?;
    }
    Ok(lines)
}

/// The rows that each line gives, none but for a line that composes.
fn row_fields(heap: Global, lines: &[Option<Line>]) -> Result<Vec<Vec<u16>>, AllocError> {
    let mut all = Vec::new(heap);
    for line in lines {
        let rows = match line {
            Some(Line::Compose(_, fields)) => numbers(heap, fields)?,
            _ => Vec::new(heap),
        };
        all.push(rows)?;
    }
    Ok(all)
}

/// The calls that the lines ask for, in their order.
fn calls_of<'t, 'r, B>(
    heap: Global,
    book: &'t B,
    lines: &[Option<Line<'t>>],
    rows: &'r [Vec<u16>],
) -> Result<Vec<Call<'t, 'r, B>>, AllocError> {
    let mut calls = Vec::new(heap);
    for (line, fields) in lines.iter().zip(rows) {
        calls.push(call_of(*line, fields.as_slice(), book))?;
    }
    Ok(calls)
}

/// What came of the calls, carried out on a fresh sheet over the book.
fn outcomes_of<V: Vocabulary, L: Lexicon>(
    heap: Global,
    vocabulary: &V,
    calls: &[Call<L>],
) -> Result<Vec<Result<sheet::Answer<V::Degree>, SheetFault>>, AllocError> {
    let mut outcomes = vec![in heap; Ok(sheet::Answer::Done); calls.len()]?;
    let _ = replay(vocabulary, calls, outcomes.as_mut_slice());
    Ok(outcomes)
}

/// The answers to the lines of a script: the calls that they ask for are carried out on a fresh sheet over the book.
pub fn answers<'t, D: Coded, B: Vocabulary<Degree = D> + Lexicon>(
    heap: Global,
    book: &'t B,
    lines: &[Option<Line<'t>>],
) -> Result<Vec<Answer>, AllocError> {
    let rows = row_fields(heap, lines)?;
    let calls = calls_of(heap, book, lines, rows.as_slice())?;
    let outcomes = outcomes_of(heap, book, calls.as_slice())?;
    let mut all = Vec::new(heap);
    for (line, outcome) in lines.iter().zip(outcomes.iter()) {
        all.push(line.map_or(Answer::Unknown, |_| told(*outcome)))?;
    }
    Ok(all)
}
