//! When a proof shows that its element is void.
ghost use Rattle.std.specs.Prelude.{◌≡◌, ◌↔◌, [], ◌∷◌, Some, IsTrue, IfOk, IfSome, MatchOption, codes};
ghost use Rattle.std.specs.Option.{option_copied};
ghost use Rattle.vocabulary.specs.declared.term.Term.{Named};
ghost use Rattle.vocabulary.specs.Lists.{item};
ghost use Rattle.dllite_axioms.specs.Chase.{rule_fact};
ghost use Rattle.dllite_axioms.specs.Worlds.{IsDisjointness};
ghost use Rattle.negative_closure.specs.Plans.{run_of};
ghost use Rattle.model_lint.specs.Voids.{AreClashing, made_up, Shows};

use crate::{Void, VoidProof};
use dllite_axioms::{Axiom, Constraint, Tbox, apply, clash};
use std::alloc::{AllocError, Global};
use vocabulary::{Fact, List, Name, Term};

/// Whether the proof shows that its element is void. A number out of range is refused like any
/// other fault.
pub fn shows(alloc: Global, proof: &VoidProof, tbox: &Tbox) -> Result<bool, AllocError>
    ensures { IfOk result (λ yes. IsTrue yes ↔ Shows tbox.now proof.now) }
{
    let Some(constraint) = item(tbox.constraints(), proof.constraint) else {
        return Ok(false);
    };
    if !is_disjointness(constraint) {
        return Ok(false);
    }
    let first = made_up(alloc, proof.what)?;
    match facts(alloc, tbox.axioms(), first, proof.rules.items())? {
        Some(facts) => {
            let shown = are_clashing(alloc, constraint, facts.items(), proof.first, proof.second)?;
            Ok(shown)
        }
        None => Ok(false),
    }
}

// The item of a number that counts from 1.
fn item<T>(items: &[T], number: u32) -> Option<&T>
    ensures { option_copied result ≡ item items.now number }
{
    if number == 0 {
        return None;
    }
    items.get((number - 1) as usize)
}

fn is_disjointness(constraint: &Constraint) -> bool
    ensures { IsTrue result ↔ IsDisjointness constraint.now }
{
    match constraint {
        Constraint::Disjoint(_, _) => true,
        Constraint::Func(_, _) => false,
        Constraint::Apart(_, _, _) => true,
        Constraint::Identified(_, _) => false,
    }
}

fn made_up(alloc: Global, what: Void) -> Result<Fact, AllocError>
    ensures { IfOk result (λ fact. fact ≡ made_up what) }
{
    let one = object(alloc, "x")?;
    match what {
        Void::Class(class) => Ok(Fact::InClass(class, one)),
        Void::Link(link) => Ok(Fact::Linked(link, one, object(alloc, "y")?)),
    }
}

fn object(alloc: Global, name: &str) -> Result<Term, AllocError>
    ensures { IfOk result (λ term. term ≡ Named name.now) }
{
    Ok(Term::Named(Name::new(alloc, name)?))
}

// The facts of the steps from the first on, `None` exactly where some rule has none.
fn facts(
    alloc: Global,
    axioms: &[Axiom],
    first: Fact,
    rules: &[(u32, u32)],
) -> Result<Option<List<Fact>>, AllocError>
    ensures { IfOk result (λ facts. facts ≡ run_of axioms.now (first ∷ []) rules.now) }
{
    let mut facts = List::new(alloc);
    facts.push(first)?;
    for rule in rules {
        match rule_fact(alloc, axioms, facts.items(), *rule)? {
            Some(fact) => facts.push(fact)?,
            None => return Ok(None),
        }
    }
    Ok(Some(facts))
}

fn rule_fact(
    alloc: Global,
    axioms: &[Axiom],
    facts: &[Fact],
    rule: (u32, u32),
) -> Result<Option<Fact>, AllocError>
    ensures { IfOk result (λ fact. fact ≡ rule_fact axioms.now facts.now rule) }
{
    match (item(axioms, rule.0), item(facts, rule.1)) {
        (Some(axiom), Some(fact)) => apply(alloc, axiom, fact),
        _ => Ok(None),
    }
}

// Whether the facts of the two numbers clash, in this order.
fn are_clashing(
    alloc: Global,
    constraint: &Constraint,
    facts: &[Fact],
    first: u32,
    second: u32,
) -> Result<bool, AllocError>
    ensures { IfOk result (λ yes. IsTrue yes ↔ AreClashing constraint.now facts.now first second) }
{
    match (item(facts, first), item(facts, second)) {
        (Some(one), Some(two)) => {
            let both = [one.copy(alloc)?, two.copy(alloc)?];
            Ok(clash(constraint, &both))
        }
        _ => Ok(false),
    }
}
