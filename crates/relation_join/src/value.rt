//! The term of a variable in a row.
ghost use Rattle.std.specs.Prelude.{◌≡◌, ◌↔◌, ◌++◌, IfSome, IsTrue};
ghost use Rattle.std.specs.Option.{option_copied};
ghost use Rattle.vocabulary.specs.Lists.{In};
ghost use Rattle.relation_join.specs.Joins.{value_in};

use vocabulary::{Term, VarId};

/// The term where the variable first stands.
pub(crate) fn value_of<'a>(vars: &[VarId], row: &'a [Term], var: VarId) -> Option<&'a Term>
    ensures { option_copied result ≡ value_in vars.now row.now var }
{
    let mut at = 0;
    while at < vars.len() && at < row.len() {
        if vars[at].0 == var.0 {
            return Some(&row[at]);
        }
        at += 1;
    }
    None
}

fn stands_in(vars: &[VarId], var: VarId) -> bool
    ensures { IsTrue result ↔ In var vars.now }
{
    for other in vars {
        if other.0 == var.0 {
            return true;
        }
    }
    false
}

/// The first of these variables that is among the others too.
pub(crate) fn first_shared(vars: &[VarId], others: &[VarId]) -> Option<VarId>
    ensures first { IfSome result (λ v. In v vars.now) }
    ensures other { IfSome result (λ v. In v others.now) }
{
    for var in vars {
        if stands_in(others, *var) {
            return Some(*var);
        }
    }
    None
}
