//! The laws of certain answers. Each function's clause is the law; the bodies do nothing.
ghost use Rattle.certain_semantics.specs.Laws.{CertainIsDerived, CertainIsTrueInFiniteModels, CertainIsTrueInModels};

/// A tuple is a certain answer exactly where its terms are known and the query matches derived
/// facts so that the head goes to it.
pub fn derived()
    ensures { CertainIsDerived }
{}

/// A tuple is a certain answer exactly where its terms are known and in every model of the facts,
/// finite or not, it is the image of the head under a match.
pub fn true_in_models()
    ensures { CertainIsTrueInModels }
{}

/// Each certain answer is the image of the head under a match in every finite model of the facts,
/// and so in those that meet the constraints too.
pub fn true_in_finite_models()
    ensures { CertainIsTrueInFiniteModels }
{}
