//! The laws of order and normal form. Each function's clause is the law; the bodies do nothing.
ghost use Rattle.queries.specs.Laws.{CheckedPasses, QueriesAreOrdered, TidyingSettles, TuplesAreOrdered, UnifyingIsComputed};

/// The order of queries is total, and equal queries are the same lists.
pub fn order()
    ensures { QueriesAreOrdered }
{}

/// The orders of terms and of tuples are total, and only what is the same is level in them.
pub fn order_of_tuples()
    ensures { TuplesAreOrdered }
{}

/// The normal form is reached: tidying changes nothing more, no variable that is not in the head
/// stands just once, and there are no more atoms than before.
pub fn settles()
    ensures { TidyingSettles }
{}

/// Two atoms unify exactly where `unify_atoms` says so, and every unify step is that of two places.
pub fn unifying_is_computed()
    ensures { UnifyingIsComputed }
{}

/// A query that passes `check` has at most 16 atoms and head places, and where the constants of its
/// head are known its head stands, as the rewriting asks.
pub fn checked_passes()
    ensures { CheckedPasses }
{}
