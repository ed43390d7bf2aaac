//! What axioms give.
ghost use Rattle.std.specs.Prelude.{◌≡◌, ◌≢◌, ◌≤◌, ◌<◌, ◌++◌, false, true, nat_lt, length, map, IfOk, OnOk, IfErr};
ghost use Rattle.std.specs.List.{flat_map};
ghost use Rattle.line_lexer.specs.Faults.{limit_of};
ghost use Rattle.line_lexer.specs.declared.fault.Counted.TheVariants.{Constraints};
ghost use Rattle.dllite_axioms.specs.declared.axioms.Constraint.TheVariants.{Disjoint};
ghost use Rattle.owl_functional.specs.Ontology.{basic_of, axioms_of, constraints_of, pairs};

use crate::fault::OwlFault;
use crate::numbered::Numbered;
use crate::tree::{Axiom, Concept, Form};
use dllite_axioms::{Axiom as Inclusion, Basic, Constraint};
use line_lexer::Counted;
use std::alloc::{AllocError, Global};
use vocabulary::List;

/// The count passes its number.
pub(crate) fn passes(what: Counted, count: usize) -> bool
    ensures { result ≡ nat_lt (limit_of what) count }
{
    (what.limit() as usize) < count
}

fn push_inclusions(
    numbered: &Numbered,
    list: &mut List<Inclusion>,
    item: &Axiom,
) -> Result<(), AllocError>
    ensures { OnOk result (list.new ≡ list.old ++ axioms_of numbered.now item.now) }
{
    match &item.form {
        Form::Sub(b, Some(c)) => { list.push(Inclusion::Sub(numbered.basic(b), numbered.basic(c))) }
        Form::SubLink(q, d, p) => {
            list.push(Inclusion::SubLink(numbered.link_id(q), *d, numbered.link_id(p)))
        }
        _ => Ok(()),
    }
}

/// The axioms of inclusion that the axioms give, in order.
#[tactic(auto, using(crate::proofs::Lists::next_axioms))]
pub(crate) fn inclusions(
    alloc: Global,
    numbered: &Numbered,
    axioms: &[Axiom],
) -> Result<List<Inclusion>, AllocError>
    ensures { IfOk result (λ list. list ≡ flat_map (axioms_of numbered.now) axioms.now) }
{
    let mut list = List::new(alloc);
    for axiom in axioms {
        push_inclusions(numbered, &mut list, axiom)?;
    }
    Ok(list)
}

#[tactic(auto, using(crate::proofs::Lists::next_basic))]
fn basics(
    alloc: Global,
    numbered: &Numbered,
    concepts: &[Concept],
) -> Result<List<Basic>, AllocError>
    ensures { IfOk result (λ list. list ≡ map (basic_of numbered.now) concepts.now) }
{
    let mut list = List::new(alloc);
    for concept in concepts {
        list.push(numbered.basic(concept))?;
    }
    Ok(list)
}

// The first with each of the others.
fn push_row(list: &mut List<Constraint>, first: Basic, others: &[Basic]) -> Result<(), AllocError>
    ensures { OnOk result (list.new ≡ list.old ++ map (Disjoint first) others.now) }
{
    for other in others {
        list.push(Constraint::Disjoint(first, *other))?;
    }
    Ok(())
}

// Each with each behind it, or some of them where they are too many. Says whether all are there.
fn push_pairs(list: &mut List<Constraint>, basics: &[Basic]) -> Result<bool, AllocError>
    ensures all { IfOk result (λ fits. fits ≡ true → list.new ≡ list.old ++ pairs basics.now) }
    ensures many { IfOk result (λ fits. fits ≡ false → 3000 < length (list.old ++ pairs basics.now)) }
{
    for i in 0..basics.len() {
        if passes(Counted::Constraints, list.len()) {
            return Ok(false);
        }
        let (_, others) = basics.split_at(i + 1);
        push_row(list, basics[i], others)?;
    }
    Ok(true)
}

// The constraints of an axiom, or some of them where they are too many. Says whether all are there.
fn push_constraints(
    alloc: Global,
    numbered: &Numbered,
    list: &mut List<Constraint>,
    item: &Axiom,
) -> Result<bool, AllocError>
    ensures all { IfOk result (λ fits. fits ≡ true → list.new ≡ list.old ++ constraints_of numbered.now item.now) }
    ensures many { IfOk result (λ fits. fits ≡ false → 3000 < length (list.old ++ constraints_of numbered.now item.now)) }
{
    match &item.form {
        Form::Disjoint(concepts) => {
            let basics = basics(alloc, numbered, concepts.items())?;
            push_pairs(list, basics.items())
        }
        Form::Func(p, d) => {
            list.push(Constraint::Func(numbered.link_id(p), *d))?;
            Ok(true)
        }
        _ => Ok(true),
    }
}

/// The constraints that the axioms give, in order.
pub(crate) fn constraints(
    alloc: Global,
    numbered: &Numbered,
    axioms: &[Axiom],
) -> Result<List<Constraint>, OwlFault>
    ensures read { IfOk result (λ list. list ≡ flat_map (constraints_of numbered.now) axioms.now) }
    ensures within { IfOk result (λ list. length list ≤ 3000) }
    ensures limit { IfErr result (λ e. e ≢ OwlFault.NoMemory → e ≡ OwlFault.Limit Constraints) }
    ensures many { IfErr result (λ e. e ≢ OwlFault.NoMemory → 3000 < length (flat_map (constraints_of numbered.now) axioms.now)) }
{
    let mut list = List::new(alloc);
    for axiom in axioms {
        let fits = push_constraints(alloc, numbered, &mut list, axiom)?;
        if !fits {
            return Err(OwlFault::Limit(Counted::Constraints));
        }
    }
    if passes(Counted::Constraints, list.len()) {
        Err(OwlFault::Limit(Counted::Constraints))
    } else {
        Ok(list)
    }
}
