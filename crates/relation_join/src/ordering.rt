//! Tuples in order, and lists of tuples that stay short.
ghost use Rattle.std.specs.Prelude.{◌≤◌, ◌↔◌, List as ListOf, IfOk, OnOk, length};
ghost use Rattle.vocabulary.specs.Lists.{In, IsListOf};
ghost use Rattle.vocabulary.specs.declared.term.Term.{Term as TermOf};
ghost use Rattle.queries.specs.Order.{tuple_cmp};

use queries::compare_tuples;
use std::alloc::AllocError;
use vocabulary::{List, Term};

/// Puts tuples in order, each once.
pub fn put_in_order(tuples: &mut Vec<List<Term>>) -> Result<(), AllocError>
    ensures { OnOk result (IsListOf tuple_cmp (λ ts. In ts tuples.old.items) tuples.new.items) }
{
    tuples.sort_by(|a, b| compare_tuples(a.items(), b.items()))?;
    tuples.dedup_by(|a, b| compare_tuples(a.items(), b.items()).is_eq());
    Ok(())
}

/// The number of tuples to begin with: so many are let be, repeats or not.
pub const FEW: usize = 4_096;

/// Drops repeats where there are more than so many tuples. The answer is how many there may be when
/// this is asked again: twice as many as are left, so that a list that grows is sorted each time it
/// has doubled. How many is a choice of time and memory alone, so no clause says it.
pub fn trim(tuples: &mut Vec<List<Term>>, most: usize) -> Result<usize, AllocError>
    ensures same { IfOk result (λ _. (ts : ListOf TermOf) → In ts tuples.new.items ↔ In ts tuples.old.items) }
    ensures room { IfOk result (λ n. length tuples.new.items ≤ n) }
{
    if tuples.len() <= most {
        return Ok(most);
    }
    put_in_order(tuples)?;
    Ok(tuples.len().saturating_mul(2).max(FEW))
}
