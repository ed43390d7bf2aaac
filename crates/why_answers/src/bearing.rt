//! Leads to what the birth of a fold step gives.
ghost use Rattle.std.specs.Prelude.{◌≡◌, ◌<◌, ◌-◌, ◌^◌, ◌∷◌, IfOk, IfSome, IsTrue, OnOk, MatchOption, Some, length, slice_get, ◌↔◌};
ghost use Rattle.std.specs.Option.{option_copied};
ghost use Rattle.vocabulary.specs.Lists.{In};
ghost use Rattle.dllite_axioms.specs.Within.{IsAxiomWithin};
ghost use Rattle.dllite_axioms.specs.declared.axioms.Axiom.{Axiom as AxiomOf};
ghost use Rattle.dllite_axioms.specs.declared.axioms.Axiom.TheVariants.{Sub};
ghost use Rattle.dllite_axioms.specs.declared.axioms.Basic.TheVariants.{Has};
ghost use Rattle.fold_rewriting.specs.Places.{IsBorn, arg_at};
ghost use Rattle.dllite_axioms.specs.Basics.{other};
ghost use Rattle.dllite_axioms.specs.Chains.{Chain};
ghost use Rattle.dllite_axioms.specs.declared.axioms.Basic.TheVariants.{Class};
ghost use Rattle.negative_closure.specs.Chains.{IsLinkPath, IsPath, IsUnder};
ghost use Rattle.why_answers.specs.Bearing.{AddsBorn, AddsFrom, BirthLeads, IsPlace, LeadOn, arg_var, born, var_at};

use crate::showing::{Lead, Mark, plain};
use dllite_axioms::{Axiom, Basic};
use fold_rewriting::FoldStep;
use negative_closure::Downs;
use queries::{Arg, Atom, Query};
use sqlite_items::Boxed;
use std::alloc::{AllocError, Global};
use vocabulary::{ClassId, Dir, Fact, LinkId, List, Term, VarId};

fn arg_at(atom: &Atom, end: Dir) -> Option<&Arg>
    ensures { option_copied result ≡ arg_at atom.now end }
{
    match (atom, end) {
        (Atom::InClass(_, x), Dir::Fwd) => Some(x),
        (Atom::InClass(_, _), Dir::Back) => None,
        (Atom::Linked(_, _, y), Dir::Fwd) => Some(y),
        (Atom::Linked(_, x, _), Dir::Back) => Some(x),
    }
}

fn var_of(atom: &Atom, end: Dir) -> Option<VarId>
    ensures { result ≡ arg_var (arg_at atom.now end) }
{
    match arg_at(atom, end) {
        Some(Arg::Var(v)) => Some(*v),
        _ => None,
    }
}

fn var_at(query: &Query, at: usize, end: Dir) -> Option<VarId>
    ensures { result ≡ var_at query.now at end }
{
    match query.atoms.items().get(at) {
        Some(atom) => var_of(atom, end),
        None => None,
    }
}

// Whether the variable or Blank of the fold step stands at this end of the atom.
fn is_place(query: &Query, step: &FoldStep, at: usize, end: Dir) -> bool
    ensures { IsPlace query.now step.now at end → IsTrue result }
{
    if at == step.atom as usize && end == step.end {
        return true;
    }
    match (
        var_at(query, step.atom as usize, step.end),
        var_at(query, at, end),
    ) {
        (Some(v), Some(w)) => v.0 == w.0,
        _ => false,
    }
}

fn opposite(dir: Dir) -> Dir
    ensures { result ≡ other dir }
{
    match dir {
        Dir::Fwd => Dir::Back,
        Dir::Back => Dir::Fwd,
    }
}

fn chain_into(
    alloc: Global,
    downs: &Downs,
    birth: (LinkId, Dir),
    class: ClassId,
) -> Result<Option<List<u32>>, AllocError>
    requires within { (a : AxiomOf) → In a downs.now.axioms → IsAxiomWithin downs.now.classes downs.now.links a }
    ensures { IfOk result (λ o. MatchOption o (Chain downs.now.axioms (Has birth.0 (other birth.1)) (Class class) → ⊥) (IsPath downs.now.axioms (Has birth.0 (other birth.1)) (Class class))) }
{
    if class.0 >= downs.classes() {
        return Ok(None);
    }
    downs.chain(
        alloc,
        Basic::Has(birth.0, opposite(birth.1)),
        Basic::Class(class),
    )
}

fn chain_to(
    alloc: Global,
    downs: &Downs,
    birth: (LinkId, Dir),
    end: (LinkId, Dir),
) -> Result<Option<List<u32>>, AllocError>
    requires within { (a : AxiomOf) → In a downs.now.axioms → IsAxiomWithin downs.now.classes downs.now.links a }
    requires link { birth.0.0 < downs.now.links }
    ensures { IfOk result (λ o. MatchOption o (IsUnder downs.now.axioms birth end → ⊥) (IsLinkPath downs.now.axioms birth end)) }
{
    if end.0.0 >= downs.links() {
        return Ok(None);
    }
    downs.link_chain(alloc, birth, end)
}

// The axioms that lead from the birth to the atom with the fresh term at this end.
fn chain_of(
    alloc: Global,
    downs: &Downs,
    birth: (LinkId, Dir),
    atom: &Atom,
    end: Dir,
) -> Result<Option<List<u32>>, AllocError>
    requires within { (a : AxiomOf) → In a downs.now.axioms → IsAxiomWithin downs.now.classes downs.now.links a }
    requires link { birth.0.0 < downs.now.links }
    ensures { IfOk result (λ o. MatchOption o (IsBorn downs.now.axioms birth.0 birth.1 atom.now end → ⊥) (BirthLeads downs.now.axioms birth.0 birth.1 atom.now end)) }
{
    match atom {
        Atom::InClass(class, _) => chain_into(alloc, downs, birth, *class),
        Atom::Linked(link, _, _) => chain_to(alloc, downs, birth, (*link, end)),
    }
}

fn born(
    alloc: Global,
    birth: (LinkId, Dir),
    term: &Term,
    atom: &Atom,
    end: Dir,
) -> Result<Fact, AllocError>
    ensures { IfOk result (λ f. f ≡ born birth.0 birth.1 term.now atom.now end) }
{
    let fresh = Term::New(birth.0, birth.1, Boxed::new(alloc, term.copy(alloc)?)?);
    match (atom, end) {
        (Atom::InClass(class, _), _) => Ok(Fact::InClass(*class, fresh)),
        (Atom::Linked(link, _, _), Dir::Fwd) => Ok(Fact::Linked(*link, term.copy(alloc)?, fresh)),
        (Atom::Linked(link, _, _), Dir::Back) => Ok(Fact::Linked(*link, fresh, term.copy(alloc)?)),
    }
}

// The axiom, and then those of the chain.
fn behind(alloc: Global, first: u32, chain: &[u32]) -> Result<List<u32>, AllocError>
    ensures { IfOk result (λ l. l ≡ first ∷ chain.now) }
{
    let mut numbers = Vec::from_slice(alloc, chain)?;
    numbers.insert(0, first)?;
    Ok(List::from_vec(numbers))
}

fn push_born_at(
    alloc: Global,
    downs: &Downs,
    query: &Query,
    step: &FoldStep,
    by: u32,
    from: u32,
    term: &Term,
    at: usize,
    atom: &Atom,
    end: Dir,
    leads: &mut List<Lead>,
) -> Result<(), AllocError>
    requires within { (a : AxiomOf) → In a downs.now.axioms → IsAxiomWithin downs.now.classes downs.now.links a }
    requires by { slice_get downs.now.axioms by ≡ Some (Sub step.now.left (Has step.now.link step.now.dir)) }
    requires atom { slice_get query.now.atoms at ≡ Some atom.now }
    ensures { OnOk result (AddsBorn (λ i e. (i ≡ at) × (e ≡ end)) downs.now.axioms query.now step.now from term.now leads.old leads.new) }
{
    if !is_place(query, step, at, end) {
        return Ok(());
    }
    let birth = (step.link, step.dir);
    let Some(chain) = chain_of(alloc, downs, birth, atom, end)? else {
        return Ok(());
    };
    let numbers = behind(alloc, by, chain.items())?;
    let fact = born(alloc, birth, term, atom, end)?;
    leads.push(Lead {
        step: from,
        chain: numbers,
        fact,
    })
}

fn push_born(
    alloc: Global,
    downs: &Downs,
    query: &Query,
    step: &FoldStep,
    by: u32,
    from: u32,
    term: &Term,
    end: Dir,
    leads: &mut List<Lead>,
) -> Result<(), AllocError>
    requires within { (a : AxiomOf) → In a downs.now.axioms → IsAxiomWithin downs.now.classes downs.now.links a }
    requires by { slice_get downs.now.axioms by ≡ Some (Sub step.now.left (Has step.now.link step.now.dir)) }
    ensures { OnOk result (AddsBorn (λ i e. e ≡ end) downs.now.axioms query.now step.now from term.now leads.old leads.new) }
{
    for at in 0..query.atoms.len() {
        let atom = &query.atoms.items()[at];
        push_born_at(
            alloc, downs, query, step, by, from, term, at, atom, end, leads,
        )?;
    }
    Ok(())
}

fn push_from(
    alloc: Global,
    downs: &Downs,
    query: &Query,
    step: &FoldStep,
    by: u32,
    mark: &Mark,
    leads: &mut List<Lead>,
) -> Result<(), AllocError>
    requires within { (a : AxiomOf) → In a downs.now.axioms → IsAxiomWithin downs.now.classes downs.now.links a }
    requires by { slice_get downs.now.axioms by ≡ Some (Sub step.now.left (Has step.now.link step.now.dir)) }
    ensures { OnOk result (AddsFrom downs.now.axioms query.now step.now mark.now leads.old leads.new) }
{
    let Some(term) = step.left.term_in(&mark.fact) else {
        return Ok(());
    };
    push_born(
        alloc,
        downs,
        query,
        step,
        by,
        mark.step,
        term,
        Dir::Fwd,
        leads,
    )?;
    push_born(
        alloc,
        downs,
        query,
        step,
        by,
        mark.step,
        term,
        Dir::Back,
        leads,
    )
}

fn is_same(a: Basic, b: Basic) -> bool
    ensures { IsTrue result ↔ (a ≡ b) }
{
    match (a, b) {
        (Basic::Class(a), Basic::Class(b)) => a.0 == b.0,
        (Basic::Has(p, d), Basic::Has(q, e)) => p.0 == q.0 && d == e,
        _ => false,
    }
}

fn is_birth(given: &Axiom, left: Basic, link: LinkId, dir: Dir) -> bool
    ensures { IsTrue result ↔ (given.now ≡ Sub left (Has link dir)) }
{
    match given {
        Axiom::Sub(l, r) => is_same(*l, left) && is_same(*r, Basic::Has(link, dir)),
        Axiom::SubLink(_, _, _) => false,
    }
}

// The number, from 0, of the axiom of the step.
fn axiom_of(axioms: &[Axiom], step: &FoldStep) -> Option<u32>
    requires { length axioms.now < 2 ^ 32 - 1 }
    ensures { MatchOption result (In (Sub step.now.left (Has step.now.link step.now.dir)) axioms.now → ⊥) (λ k. slice_get axioms.now k ≡ Some (Sub step.now.left (Has step.now.link step.now.dir))) }
{
    for at in 0..axioms.len() {
        if is_birth(&axioms[at], step.left, step.link, step.dir) {
            return Some(at as u32);
        }
    }
    None
}

/// Leads from the marks to their own facts, and to what the birth of the fold step gives at the terms of
/// which they say the left side: for each atom in which its variable or Blank stands.
pub(crate) fn leads_of(
    alloc: Global,
    axioms: &[Axiom],
    downs: &Downs,
    query: &Query,
    step: &FoldStep,
    marks: &[Mark],
) -> Result<List<Lead>, AllocError>
    requires axioms { axioms.now ≡ downs.now.axioms }
    requires few { length axioms.now < 2 ^ 32 - 1 }
    requires within { (a : AxiomOf) → In a downs.now.axioms → IsAxiomWithin downs.now.classes downs.now.links a }
    requires by { In (Sub step.now.left (Has step.now.link step.now.dir)) downs.now.axioms }
    ensures { IfOk result (LeadOn downs.now.axioms query.now step.now marks.now marks.now) }
{
    let Some(by) = axiom_of(axioms, step) else {
        unreachable!();
    };
    let mut leads = plain(alloc, marks)?;
    for mark in marks {
        push_from(alloc, downs, query, step, by, mark, &mut leads)?;
    }
    Ok(leads)
}
