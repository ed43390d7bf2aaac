//! The law of accepted derivations. The function's clause is the law; the body does nothing.
ghost use Rattle.conflict_checker.specs.Laws.{AcceptedIsContradicted};

/// The constraint of an accepted derivation is contradicted: the facts that clash stand in a chase of the
/// mapped facts.
pub fn accepted_is_contradicted()
    ensures { AcceptedIsContradicted }
{}
