ghost use Rattle.scale.specs.Degrees.{mark_operations};
ghost use Rattle.unification.specs.EightWords.{eight_words};
ghost use Rattle.unification.specs.Examples.{WorkedExamples};
ghost use Rattle.unification.specs.Theorems.{WeakUnification};
ghost use Rattle.vocabulary.specs.Words.{IsVocabulary};

/// Eight words over marks keep the laws of a vocabulary, and all theorems hold of them: nothing is assumed.
pub fn eight_words_match()
    ensures lawful { IsVocabulary mark_operations eight_words }
    ensures theorems { WeakUnification mark_operations eight_words }
{}

/// Seven pairs of texts over the eight words are matched, or refused, as worked out by hand.
pub fn worked_examples_hold()
    ensures { WorkedExamples }
{}
