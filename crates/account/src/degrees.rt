ghost use Rattle.scale.specs.Told.{lines_text, mark_text};
ghost use Rattle.std.specs.Prelude.{◌≡◌, ℕ, List, Some, refl};

use scale::{Coded, Lines, Mark};
use std::fmt;

/// Degrees that can be told to a reader: what is printed of each is known.
pub trait Told: Coded + fmt::Display {
    ghost told: { Self → List ℕ };

    ghost printed: { (d : Self) → Self.output d ≡ Some (told d) };
}

impl Told for Mark {
    ghost told = { λ m. mark_text m.value };

    ghost printed = { λ _. refl };
}

impl Told for Lines {
    ghost told = { λ l. lines_text l.set };

    ghost printed = { λ _. refl };
}
