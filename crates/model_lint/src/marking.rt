//! Which basics are empty by which constraints.
ghost use Rattle.std.specs.Prelude.{◌≡◌, ◌↔◌, ◌<◌, ◌+◌, ◌-◌, ◌^◌, ◌⊎◌, List as ListOf, ℕ, IfOk, IfSome, IsTrue, MatchOption, OnOk, length};
ghost use Rattle.vocabulary.specs.Lists.{In};
ghost use Rattle.dllite_axioms.specs.Within.{IsConstraintWithin};
ghost use Rattle.dllite_axioms.specs.declared.axioms.Basic.{Basic as BasicOf};
ghost use Rattle.dllite_axioms.specs.declared.axioms.Constraint.{Constraint as ConstraintOf};
ghost use Rattle.negative_closure.specs.Sources.{HasExactSources, IsSource};
ghost use Rattle.negative_closure.specs.declared.source.Source.TheVariants.{One};
ghost use Rattle.negative_closure.specs.declared.source.Source.{Source as SourceOf};
ghost use Rattle.model_lint.specs.Marks.{AreMarks, IsMark};

use dllite_axioms::{Basic, Constraint};
use negative_closure::{Downs, Source};
use std::alloc::{AllocError, Global};
use vocabulary::{Dir, List};

/// The basics that are empty by a constraint, each with the constraint's number, from 1.
pub(crate) fn marks_of(
    alloc: Global,
    downs: &Downs,
    constraints: &[Constraint],
) -> Result<List<(Basic, u32)>, AllocError>
    requires few { length constraints.now < 2 ^ 32 - 1 }
    requires within { (c : ConstraintOf) → In c constraints.now → IsConstraintWithin downs.now.classes downs.now.links c }
    ensures { IfOk result (λ marks. AreMarks downs.now.axioms constraints.now (length constraints.now) marks) }
{
    let mut marks = List::new(alloc);
    for at in 0..constraints.len() {
        add_marks(alloc, &mut marks, downs, &constraints[at], at as u32 + 1)?;
    }
    Ok(marks)
}

fn add_marks(
    alloc: Global,
    marks: &mut List<(Basic, u32)>,
    downs: &Downs,
    constraint: &Constraint,
    number: u32,
) -> Result<(), AllocError>
    requires { IsConstraintWithin downs.now.classes downs.now.links constraint.now }
    ensures { OnOk result ((mark : BasicOf × ℕ) → In mark marks.new ↔ (In mark marks.old ⊎ ((number ≡ mark.1) × IsSource downs.now.axioms constraint.now (One mark.0)))) }
{
    let sources = sources_of(alloc, downs, constraint)?;
    for source in sources.items() {
        if let Source::One(basic) = source {
            marks.push((*basic, number))?;
        }
    }
    Ok(())
}

// A functional link and an identification are never contradicted by one fact.
fn sources_of(
    alloc: Global,
    downs: &Downs,
    constraint: &Constraint,
) -> Result<List<Source>, AllocError>
    requires { IsConstraintWithin downs.now.classes downs.now.links constraint.now }
    ensures { IfOk result (λ sources. (b : BasicOf) → In (One b) sources ↔ IsSource downs.now.axioms constraint.now (One b)) }
{
    match constraint {
        Constraint::Disjoint(_, _) => downs.empty_sources(alloc, constraint),
        Constraint::Func(_, _) => Ok(List::new(alloc)),
        Constraint::Apart(_, _, _) => downs.empty_sources(alloc, constraint),
        Constraint::Identified(_, _) => Ok(List::new(alloc)),
    }
}

/// The number of a constraint by which the basic is empty.
pub(crate) fn mark_at(marks: &[(Basic, u32)], basic: Basic) -> Option<u32>
    ensures { MatchOption result ((n : ℕ) → In (basic, n) marks.now → ⊥) (λ n. In (basic, n) marks.now) }
{
    for mark in marks {
        if is_basic(mark.0, basic) {
            return Some(mark.1);
        }
    }
    None
}

fn is_basic(one: Basic, two: Basic) -> bool
    ensures { IsTrue result ↔ (one ≡ two) }
{
    match (one, two) {
        (Basic::Class(a), Basic::Class(b)) => a.0 == b.0,
        (Basic::Has(p, Dir::Fwd), Basic::Has(q, Dir::Fwd)) => p.0 == q.0,
        (Basic::Has(p, Dir::Back), Basic::Has(q, Dir::Back)) => p.0 == q.0,
        _ => false,
    }
}
