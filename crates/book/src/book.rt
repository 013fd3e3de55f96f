ghost use Rattle.book.specs.Books.{layout_vocabulary};
ghost use Rattle.book.specs.Laws.{Lawful};
ghost use Rattle.book.specs.Likeness.{words_of};
ghost use Rattle.layout.specs.Lexicons.{words_lexicon};
ghost use Rattle.layout.specs.Forms.{GoodForm};
ghost use Rattle.layout.specs.Places.{spelling_of};
ghost use Rattle.std.specs.Prelude.{◌≡◌, ⊤};

use crate::degrees::likeness;
use layout::Layout;
use scale::{Lines, Mark, Scale};
use std::alloc::AllocError;
use std::marker::PhantomData;
use vocabulary::{Lexicon, Vocabulary};

/// A book over a scale that passed its check, read where it lies.
pub struct Book<'a, S: Scale> {
    layout: Layout<'a>,
    scale: PhantomData<S>,
    ghost lawful: { ∥ Lawful S.Scale.operations layout.bytes.now ∥₁ },
}

impl<S: Scale> Copy for Book<'_, S> {}

// A struct with a ghost field and a parameter gets no derive of this.
impl<S: Scale> Clone for Book<'_, S> {
    ghost is_clone = { λ old new. new ≡ old };

    ghost is_infallible = { λ _. ⊤ };

    fn clone(&self) -> Result<Self, AllocError> {
        Ok(*self)
    }
}

/// A book of marks.
pub type MarksBook<'a> = Book<'a, Mark>;

/// A book of lines.
pub type LinesBook<'a> = Book<'a, Lines>;

impl<'a, S: Scale> Book<'a, S> {
    /// The book in bytes that passed `check` as a book of this scale.
    pub fn new(bytes: &'a [u8]) -> Book<'a, S>
        requires form { GoodForm bytes.now }
        requires lawful { Lawful S.Scale.operations bytes.now }
        ensures { result.layout.bytes.now ≡ bytes.now }
    {
        Book {
            layout: Layout::new(bytes),
            scale: PhantomData,
        }
    }
}

impl<S: Scale> Vocabulary for Book<'_, S> {
    type Degree = S;

    ghost model = { λ b. words_of S.Scale.operations b.layout.bytes.now };

    ghost lawful = { λ b. layout_vocabulary S.Scale.operations S.Scale.lawful b.layout b.lawful };

    fn count(&self) -> u16 {
        self.layout.count() as u16
    }

    fn arity(&self, word: u16) -> Option<u8> {
        self.layout.arity(word)
    }

    fn likeness(&self, f: u16, g: u16) -> S {
        likeness(&self.layout, f, g)
    }
}

impl<S: Scale> Lexicon for Book<'_, S> {
    ghost spellings = { λ b. spelling_of b.layout.bytes.now };

    ghost lawful = { λ b. words_lexicon b.layout.bytes.now b.layout.good };

    fn spelling(&self, word: u16) -> Option<&[u8]> {
        self.layout.spelling(word)
    }

    fn word(&self, spelling: &[u8]) -> Option<u16> {
        self.layout.word(spelling)
    }
}
