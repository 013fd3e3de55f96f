// The loops over the words are the project's form: ranges of numbers, and the arities with their index.
ghost use Rattle.book.specs.Laws.{Coded, Lawful, Reflexive, Symmetric, Transitive, Typed, Unlawful};
ghost use Rattle.fault.specs.Firsts.{All2, All3, Below, First1, First2, First3};
ghost use Rattle.layout.specs.Places.{count_of};
ghost use Rattle.std.specs.Option.{MatchOption};
ghost use Rattle.std.specs.Result.{MatchResult};

use crate::causes::LawFault;
use crate::degrees::{degree_at, likeness};
use layout::Layout;
use scale::{Scale, at_most};

/// The first two words for which the table's number is no degree.
fn uncoded<S: Scale>(layout: &Layout) -> Option<(u8, u8)>
    ensures { MatchOption result
        (All2 (count_of layout.now.bytes.now) (Coded S.Scale.operations layout.now.bytes.now))
        (λ p. First2 (count_of layout.now.bytes.now) (Coded S.Scale.operations layout.now.bytes.now) p.0 p.1) }
{
    let count = layout.count();
    for i in 0..count {
        for j in 0..count {
            if degree_at::<S>(layout, i as u16, j as u16).is_none() {
                return Some((i, j));
            }
        }
    }
    None
}

/// The first word that is not wholly alike to itself.
fn unlike_itself<S: Scale>(layout: &Layout) -> Option<u8>
    ensures { MatchOption result
        (Below (count_of layout.now.bytes.now) (Reflexive S.Scale.operations layout.now.bytes.now))
        (First1 (count_of layout.now.bytes.now) (Reflexive S.Scale.operations layout.now.bytes.now)) }
{
    for i in 0..layout.count() {
        if likeness::<S>(layout, i as u16, i as u16) != S::top() {
            return Some(i);
        }
    }
    None
}

/// The first two words for which the table is not symmetric.
fn asymmetry(layout: &Layout) -> Option<(u8, u8)>
    ensures { MatchOption result
        (All2 (count_of layout.now.bytes.now) (Symmetric layout.now.bytes.now))
        (λ p. First2 (count_of layout.now.bytes.now) (Symmetric layout.now.bytes.now) p.0 p.1) }
{
    let count = layout.count();
    for i in 0..count {
        for j in 0..count {
            if layout.code(i as u16, j as u16) != layout.code(j as u16, i as u16) {
                return Some((i, j));
            }
        }
    }
    None
}

/// The first two words of different arities that are alike.
fn arity_clash<S: Scale>(layout: &Layout) -> Option<(u8, u8)>
    ensures { MatchOption result
        (All2 (count_of layout.now.bytes.now) (Typed S.Scale.operations layout.now.bytes.now))
        (λ p. First2 (count_of layout.now.bytes.now) (Typed S.Scale.operations layout.now.bytes.now) p.0 p.1) }
{
    let arities = layout.arities();
    let words = &arities[..layout.count() as usize];
    for (i, one) in words.iter().enumerate() {
        for (j, other) in words.iter().enumerate() {
            if *one != *other && likeness::<S>(layout, i as u16, j as u16) != S::bottom() {
                return Some((i as u8, j as u8));
            }
        }
    }
    None
}

/// The first word to which `i` is alike less than through `j`. Where `i` and `j` are not alike there is none.
fn less_than_through<S: Scale>(layout: &Layout, i: u8, j: u8) -> Option<u8>
    ensures { MatchOption result
        (Below (count_of layout.now.bytes.now) (Transitive S.Scale.operations layout.now.bytes.now i j))
        (First1 (count_of layout.now.bytes.now) (Transitive S.Scale.operations layout.now.bytes.now i j)) }
{
    let first = likeness::<S>(layout, i as u16, j as u16);
    if first == S::bottom() {
        return None;
    }
    for k in 0..layout.count() {
        let through = first.meet(likeness::<S>(layout, j as u16, k as u16));
        if !at_most(through, likeness::<S>(layout, i as u16, k as u16)) {
            return Some(k);
        }
    }
    None
}

/// The first three words of which the outer two are alike less than through the middle one.
fn intransitivity<S: Scale>(layout: &Layout) -> Option<(u8, u8, u8)>
    ensures { MatchOption result
        (All3 (count_of layout.now.bytes.now) (Transitive S.Scale.operations layout.now.bytes.now))
        (λ p. First3 (count_of layout.now.bytes.now) (Transitive S.Scale.operations layout.now.bytes.now) p.0 p.1 p.2) }
{
    let count = layout.count();
    for i in 0..count {
        for j in 0..count {
            if let Some(k) = less_than_through::<S>(layout, i, j) {
                return Some((i, j, k));
            }
        }
    }
    None
}

/// Refuses a table by the law that it breaks first.
pub fn check_laws<S: Scale>(layout: &Layout) -> Result<(), LawFault>
    ensures { MatchResult result
        (λ _. Lawful S.Scale.operations layout.now.bytes.now)
        (Unlawful S.Scale.operations layout.now.bytes.now) }
{
    if let Some((i, j)) = uncoded::<S>(layout) {
        return Err(LawFault::NoDegree(i, j));
    }
    if let Some(i) = unlike_itself::<S>(layout) {
        return Err(LawFault::Reflexivity(i));
    }
    if let Some((i, j)) = asymmetry(layout) {
        return Err(LawFault::Symmetry(i, j));
    }
    if let Some((i, j)) = arity_clash::<S>(layout) {
        return Err(LawFault::Arity(i, j));
    }
    if let Some((i, j, k)) = intransitivity::<S>(layout) {
        return Err(LawFault::Transitivity(i, j, k));
    }
    Ok(())
}
