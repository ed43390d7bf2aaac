//! A quick test that most queries fail which do not map into one another.
ghost use Rattle.std.specs.Prelude.{◌↔◌, IsTrue};
ghost use Rattle.vocabulary.specs.Lists.{In};
ghost use Rattle.queries.specs.declared.query.Atom.{Atom};
ghost use Rattle.query_subsumption.specs.Search.{SameSymbol};
ghost use Rattle.query_subsumption.specs.Subsumption.{MapsInto};

use queries::{Atom, Query};

/// Whether the heads are of one length, and each class and link of the first query is in the second.
pub(crate) fn may_map(general: &Query, special: &Query) -> bool
    ensures { MapsInto general.now special.now → IsTrue result }
{
    general.head.len() == special.head.len()
        && have_symbols(general.atoms.items(), special.atoms.items())
}

fn have_symbols(wanted: &[Atom], atoms: &[Atom]) -> bool
    ensures { IsTrue result ↔ ((a : Atom) → In a wanted.now → (b : Atom) × In b atoms.now × SameSymbol b a) }
{
    for a in wanted {
        if !has_symbol(a, atoms) {
            return false;
        }
    }
    true
}

fn has_symbol(wanted: &Atom, atoms: &[Atom]) -> bool
    ensures { IsTrue result ↔ ((b : Atom) × In b atoms.now × SameSymbol b wanted.now) }
{
    for b in atoms {
        if same_symbol(b, wanted) {
            return true;
        }
    }
    false
}

fn same_symbol(a: &Atom, b: &Atom) -> bool
    ensures { IsTrue result ↔ SameSymbol a.now b.now }
{
    match (a, b) {
        (Atom::InClass(c, _), Atom::InClass(d, _)) => c.0 == d.0,
        (Atom::Linked(p, _, _), Atom::Linked(q, _, _)) => p.0 == q.0,
        _ => false,
    }
}
