ghost use Rattle.unification.specs.Classes.{ClassDegrees};
ghost use Rattle.unification.specs.Putting.{PuttingSettled};
ghost use Rattle.unification.specs.Similarity.{IsSimilarity};
ghost use Rattle.unification.specs.Theorems.{CrispUnifies, EquationsPossible, OrderFree, PossibleExactly, SheetsHave, SolutionsAreBest};

use scale::Scale;
use vocabulary::Vocabulary;

// Each function here does nothing: its contract is a theorem about every vocabulary, over every scale, that promises its laws. They differ
// in the theorem alone, for which no parameter can stand.

/// Likeness of terms is a similarity: reflexive at top, symmetric, transitive up to the meet.
pub fn terms_are_similar<V: Vocabulary>(words: &V)
    ensures { IsSimilarity V.Degree.Scale.operations (V.Vocabulary.model words.now) }
{}

/// The degree of a class of words is known from any one of its members, and that of two classes with a common member is the meet.
pub fn classes_have_degrees<V: Vocabulary>(words: &V)
    ensures { ClassDegrees V.Degree.Scale.operations (V.Vocabulary.model words.now) }
{}

/// A sheet has one degree, a row one representative, and either every row has a depth or there is a cycle.
pub fn sheets_have_degrees<V: Vocabulary>(words: &V)
    ensures { SheetsHave V.Degree.Scale.operations (V.Vocabulary.model words.now) }
{}

/// Without a cycle the solved substitution exists, is the only one, and is the best match at the sheet's degree.
pub fn solutions_are_best<V: Vocabulary>(words: &V)
    ensures { SolutionsAreBest V.Degree.Scale.operations (V.Vocabulary.model words.now) }
{}

/// Something suits a sheet's equations above bottom exactly when the degree is not bottom and there is no cycle.
pub fn sheets_are_possible<V: Vocabulary>(words: &V)
    ensures { PossibleExactly V.Degree.Scale.operations (V.Vocabulary.model words.now) }
{}

/// A new equation is possible exactly when it makes neither a clash nor an occurs.
pub fn equations_are_possible<V: Vocabulary>(words: &V)
    ensures { EquationsPossible V.Degree.Scale.operations (V.Vocabulary.model words.now) }
{}

/// Where only equal words are alike, the solved substitution is a most general unifier.
pub fn crisp_words_unify<V: Vocabulary>(words: &V)
    ensures { CrispUnifies V.Degree.Scale.operations (V.Vocabulary.model words.now) }
{}

/// The order of the equations changes neither the degree nor the solved substitution.
pub fn order_is_free<V: Vocabulary>(words: &V)
    ensures { OrderFree V.Degree.Scale.operations (V.Vocabulary.model words.now) }
{}

/// Every term can be put onto every sheet, in one way, and what was put stands there.
pub fn terms_are_put()
    ensures { PuttingSettled }
{}
