//! The laws of the log. Each function's clause is the law; the bodies do nothing.
ghost use Rattle.log_assembly.specs.Laws.{AskedAreInOrder, ThereIsOneLog};

/// Two logs that are the log of the same annotations and the same answers are equal.
pub fn one_log()
    ensures { ThereIsOneLog }
{}

/// The answers that annotations ask for are in order.
pub fn asked_in_order()
    ensures { AskedAreInOrder }
{}
