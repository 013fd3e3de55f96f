ghost use Rattle.layers.specs.Floors.{Cut, floored};
ghost use Rattle.layers.specs.Floored.{floor_laws};
ghost use Rattle.std.specs.Prelude.{◌≡◌};

use scale::{Scale, at_most};
use vocabulary::Vocabulary;

/// What a floor leaves of a likeness.
fn left_of<S: Scale>(floor: S, likeness: S) -> S
    ensures { Cut S.Scale.operations floor likeness result }
{
    if at_most(floor, likeness) {
        return likeness;
    }
    S::bottom()
}

/// A floor: words that are not alike at least at its degree count as not alike at all.
#[derive(Drop)]
pub struct Floor<V: Vocabulary> {
    below: V,
    degree: V::Degree,
}

impl<V: Vocabulary> Floor<V> {
    /// A floor of the given degree over a vocabulary.
    pub fn new(below: V, degree: V::Degree) -> Floor<V>
        ensures below { result.below ≡ below }
        ensures degree { result.degree ≡ degree }
    {
        Floor { below, degree }
    }
}

impl<V: Vocabulary> Vocabulary for Floor<V> {
    type Degree = V::Degree;

    ghost model = { λ t. floored V.Degree.Scale.operations t.degree (V.Vocabulary.model t.below) };

    ghost lawful = { λ t. floor_laws V.Degree.Scale.operations V.Degree.Scale.lawful t.degree (V.Vocabulary.model t.below) (V.Vocabulary.lawful t.below) };

    fn count(&self) -> u16 {
        self.below.count()
    }

    fn arity(&self, word: u16) -> Option<u8> {
        self.below.arity(word)
    }

    fn likeness(&self, f: u16, g: u16) -> V::Degree
        ensures value { result ≡ (floored V.Degree.Scale.operations self.now.degree (V.Vocabulary.model self.now.below)).likeness f g }
        ensures cut { Cut V.Degree.Scale.operations self.now.degree ((V.Vocabulary.model self.now.below).likeness f g) result }
    {
        left_of(self.degree, self.below.likeness(f, g))
    }
}
