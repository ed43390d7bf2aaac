//! Equalities that tie a cell of the next table to a cell that is known by then.
ghost use Rattle.std.specs.Prelude.{◌≡◌, IfSome, Some};
ghost use Rattle.mapping_facts.specs.declared.query.Condition.TheVariants.{Equal};
ghost use Rattle.join_engine.specs.Ties.{IsTied, tie_of};

use mapping_facts::{Condition, Place};
use vocabulary::ColId;

/// A column of the next table, and the place whose cell has the text of its cell.
#[derive(Clone, Copy)]
pub struct Tie {
    pub col: ColId,
    pub key: Place,
}

// The cell of the next table that an equality ties to an earlier one.
fn equal_tie(p: Place, q: Place, depth: usize) -> Option<Tie>
    ensures { result ≡ tie_of depth (Equal p q) }
{
    if p.table as usize == depth && (q.table as usize) < depth {
        Some(Tie { col: p.col, key: q })
    } else if q.table as usize == depth && (p.table as usize) < depth {
        Some(Tie { col: q.col, key: p })
    } else {
        None
    }
}

fn tie_of(condition: &Condition, depth: usize) -> Option<Tie>
    ensures { IfSome result (λ t. tie_of depth condition.now ≡ Some t) }
{
    match condition {
        Condition::Equal(p, q) => equal_tie(*p, *q, depth),
        _ => None,
    }
}

/// The first of the ties.
pub(crate) fn first_tie(conditions: &[Condition], depth: usize) -> Option<Tie>
    ensures { IfSome result (IsTied depth conditions.now) }
{
    for condition in conditions {
        if let Some(found) = tie_of(condition, depth) {
            return Some(found);
        }
    }
    None
}
