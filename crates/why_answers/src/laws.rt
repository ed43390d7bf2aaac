//! The law of explanations. The function's clause is the law; the body does nothing.
ghost use Rattle.why_answers.specs.Laws.{ExplainedIsCertain};

/// Only certain answers are explained.
pub fn explained_is_certain()
    ensures { ExplainedIsCertain }
{}
