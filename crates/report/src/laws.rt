ghost use Rattle.report.specs.Laws.{both_of, law_sentence};
ghost use Rattle.book.specs.declared.causes.LawFault.TheVariants.{Arity, NoDegree, Reflexivity, Symmetry, Transitivity};
ghost use Rattle.std.specs.Prelude.{◌≡◌, IfOk, string_bytes};

use account::{Told, name};
use book::{LawFault, likeness};
use layout::Layout;
use std::alloc::{AllocError, Global};

/// Speaks of the words of a book.
#[derive(Clone, Copy)]
struct Speaker<'a> {
    heap: Global,
    layout: &'a Layout<'a>,
}

impl Speaker<'_> {
    /// Two words, named.
    fn both(&self, i: u8, j: u8) -> Result<String, AllocError>
        ensures { IfOk result (λ s. string_bytes s ≡ both_of self.now.layout.now.bytes.now i j) }
    {
        let one = name(self.heap, self.layout, i as u16)?;
        let other = name(self.heap, self.layout, j as u16)?;
        format!(in self.heap; "{one} and {other}")
    }

    /// The table's number for two words is no degree.
    fn code_sentence<D: Told>(&self, i: u8, j: u8) -> Result<String, AllocError>
        ensures { IfOk result (λ s. string_bytes s ≡ law_sentence D.Scale.operations D.Told.told self.now.layout.now.bytes.now (NoDegree i j)) }
    {
        let words = self.both(i, j)?;
        let code = self.layout.code(i as u16, j as u16).unwrap_or(0);
        format!(in self.heap;
            "{words} have the number {code}, which is no mark: marks go from 0 to 1000."
        )
    }

    /// A word is not wholly alike to itself.
    fn reflexivity_sentence<D: Told>(&self, i: u8) -> Result<String, AllocError>
        ensures { IfOk result (λ s. string_bytes s ≡ law_sentence D.Scale.operations D.Told.told self.now.layout.now.bytes.now (Reflexivity i)) }
    {
        let word = name(self.heap, self.layout, i as u16)?;
        let degree = likeness::<D>(self.layout, i as u16, i as u16);
        format!(in self.heap; "{word} is alike to itself at {degree}, and not wholly.")
    }

    /// Two words are alike otherwise in the other order.
    fn symmetry_sentence<D: Told>(&self, i: u8, j: u8) -> Result<String, AllocError>
        ensures { IfOk result (λ s. string_bytes s ≡ law_sentence D.Scale.operations D.Told.told self.now.layout.now.bytes.now (Symmetry i j)) }
    {
        let words = self.both(i, j)?;
        let there = likeness::<D>(self.layout, i as u16, j as u16);
        let turned = self.both(j, i)?;
        let back = likeness::<D>(self.layout, j as u16, i as u16);
        format!(in self.heap; "{words} are alike at {there}, but {turned} at {back}.")
    }

    /// Two words that take different numbers of arguments are alike.
    fn arity_sentence<D: Told>(&self, i: u8, j: u8) -> Result<String, AllocError>
        ensures { IfOk result (λ s. string_bytes s ≡ law_sentence D.Scale.operations D.Told.told self.now.layout.now.bytes.now (Arity i j)) }
    {
        let words = self.both(i, j)?;
        let degree = likeness::<D>(self.layout, i as u16, j as u16);
        let first = self.layout.arity(i as u16).unwrap_or(0);
        let second = self.layout.arity(j as u16).unwrap_or(0);
        format!(in self.heap;
            "{words} are alike at {degree}, though they take {first} and {second} arguments."
        )
    }

    /// Two words are alike less than through a third.
    fn transitivity_sentence<D: Told>(&self, i: u8, j: u8, k: u8) -> Result<String, AllocError>
        ensures { IfOk result (λ s. string_bytes s ≡ law_sentence D.Scale.operations D.Told.told self.now.layout.now.bytes.now (Transitivity i j k)) }
    {
        let words = self.both(i, k)?;
        let degree = likeness::<D>(self.layout, i as u16, k as u16);
        let between = name(self.heap, self.layout, j as u16)?;
        let first = likeness::<D>(self.layout, i as u16, j as u16);
        let through = first.meet(likeness::<D>(self.layout, j as u16, k as u16));
        format!(in self.heap;
            "{words} are alike at {degree}, less than through {between}: {through}."
        )
    }
}

/// Which law the table of a book breaks, and at which words.
pub fn law_sentence<D: Told>(
    heap: Global,
    layout: &Layout,
    fault: LawFault,
) -> Result<String, AllocError>
    ensures { IfOk result (λ s. string_bytes s ≡ law_sentence D.Scale.operations D.Told.told layout.now.bytes.now fault) }
{
    let speaker = Speaker { heap, layout };
    match fault {
        LawFault::NoDegree(i, j) => speaker.code_sentence::<D>(i, j),
        LawFault::Reflexivity(i) => speaker.reflexivity_sentence::<D>(i),
        LawFault::Symmetry(i, j) => speaker.symmetry_sentence::<D>(i, j),
        LawFault::Arity(i, j) => speaker.arity_sentence::<D>(i, j),
        LawFault::Transitivity(i, j, k) => speaker.transitivity_sentence::<D>(i, j, k),
    }
}
