//! Whether axioms and constraints are over so many classes and links.
ghost use Rattle.std.specs.Prelude.{◌≡◌, IfOk, IsTrue};
ghost use Rattle.vocabulary.specs.Lists.{In};
ghost use Rattle.dllite_axioms.specs.declared.axioms.Axiom.{Axiom as AxiomOf};
ghost use Rattle.dllite_axioms.specs.Within.{IsAxiomWithin, IsConstraintWithin, IsWithin};
ghost use Rattle.negative_closure.specs.Sources.{HasExactSources};

use dllite_axioms::{Axiom, Basic, Constraint, Tbox};
use negative_closure::Downs;
use std::alloc::Global;
use std::test::Fail;

pub fn is_within(basic: Basic, classes: u32, links: u32) -> bool
    ensures { IsTrue result → IsWithin classes links basic }
{
    match basic {
        Basic::Class(class) => class.0 < classes,
        Basic::Has(link, _) => link.0 < links,
    }
}

fn is_axiom_within(axiom: Axiom, classes: u32, links: u32) -> bool
    ensures { IsTrue result → IsAxiomWithin classes links «axiom» }
{
    match axiom {
        Axiom::Sub(left, right) => {
            is_within(left, classes, links) && is_within(right, classes, links)
        }
        Axiom::SubLink(narrow, _, wide) => narrow.0 < links && wide.0 < links,
    }
}

pub fn are_within(axioms: &[Axiom], classes: u32, links: u32) -> bool
    ensures { IsTrue result → (a : AxiomOf) → In a axioms.now → IsAxiomWithin classes links a }
{
    for axiom in axioms {
        if !is_axiom_within(*axiom, classes, links) {
            return false;
        }
    }
    true
}

pub fn is_constraint_within(constraint: &Constraint, classes: u32, links: u32) -> bool
    ensures { IsTrue result → IsConstraintWithin classes links constraint.now }
{
    match constraint {
        Constraint::Disjoint(left, right) => {
            is_within(*left, classes, links) && is_within(*right, classes, links)
        }
        Constraint::Func(link, _) => link.0 < links,
        Constraint::Apart(one, _, two) => one.0 < links && two.0 < links,
        Constraint::Identified(_, _) => false,
    }
}

// Of a functional link only without axioms.
pub fn has_exact_sources(axioms: &[Axiom], constraint: &Constraint) -> bool
    ensures { IsTrue result → HasExactSources axioms.now constraint.now }
{
    match constraint {
        Constraint::Disjoint(_, _) | Constraint::Apart(_, _, _) => true,
        Constraint::Func(_, _) => axioms.is_empty(),
        Constraint::Identified(_, _) => false,
    }
}

pub fn downs_of(alloc: Global, tbox: &Tbox, classes: u32, links: u32) -> Result<Downs, Fail>
    ensures downs { IfOk result (λ d. d ≡ record { axioms = tbox.now.axioms; classes = classes; links = links }) }
    ensures within { IfOk result (λ d. (a : AxiomOf) → In a d.axioms → IsAxiomWithin d.classes d.links a) }
{
    if classes > 400 || links > 600 || tbox.axioms().len() > 99 {
        return Err(Fail::new("too many"));
    }
    if !are_within(tbox.axioms(), classes, links) {
        return Err(Fail::new("not within"));
    }
    Ok(Downs::of(alloc, tbox, classes, links)?)
}
