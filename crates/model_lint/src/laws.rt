//! The laws of void elements. Each function's clause is the law; the bodies do nothing.
ghost use Rattle.model_lint.specs.Laws.{ShownIsVoid};

/// What a proof shows to be void is void: no consistent data has a fact of it.
pub fn shown_is_void()
    ensures { ShownIsVoid }
{}
