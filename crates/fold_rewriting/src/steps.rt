//! The fold steps of a query.
ghost use Rattle.std.specs.Prelude.{◌≡◌, ◌↔◌, ◌<◌, ◌+◌, ◌-◌, ◌^◌, ◌++◌, IsTrue, IfOk, OnOk, MatchOption, length, map};
ghost use Rattle.vocabulary.specs.Lists.{In};
ghost use Rattle.dllite_axioms.specs.Within.{IsAxiomWithin};
ghost use Rattle.dllite_axioms.specs.declared.axioms.Axiom.{Axiom as AxiomOf};
ghost use Rattle.fold_rewriting.specs.Found.{AreAdded, IsBy, IsCut, IsFree, told};
ghost use Rattle.fold_rewriting.specs.declared.cutting.Cut.{Cut as CutOf};
ghost use Rattle.fold_rewriting.specs.Steps.{AreFoldSteps};

use crate::atoms::{arg_at, is_free};
use crate::births::{are_born, births_of};
use crate::cutting::{Cut, cut_of};
use dllite_axioms::Basic;
use negative_closure::Downs;
use queries::Query;
use std::alloc::{AllocError, Global};
use vocabulary::{Dir, LinkId, List};

/// A fold step: the axiom by which `left` has a filler of the link, and where the variable or the
/// Blank that is folded stands first, by the number of its atom, from 0, and the end of it: of a
/// link its second place for `Fwd`, its first for `Back`; of a class its only place, for `Fwd`.
#[derive(Clone, Copy, Debug)]
pub struct FoldStep {
    pub link: LinkId,
    pub dir: Dir,
    pub left: Basic,
    pub atom: u32,
    pub end: Dir,
}

/// All fold steps of a query, each with the normal form of what it gives. Different steps may give
/// the same query.
pub fn fold_steps(
    alloc: Global,
    downs: &Downs,
    query: &Query,
) -> Result<List<(FoldStep, Query)>, AllocError>
    requires within { (a : AxiomOf) → In a downs.now.axioms → IsAxiomWithin downs.now.classes downs.now.links a }
    requires head { length query.now.head < 2 ^ 32 - 1 }
    requires atoms { length query.now.atoms < 2 ^ 32 - 1 }
    ensures { IfOk result (AreFoldSteps downs.now.axioms query.now) }
{
    let mut steps = List::new(alloc);
    for at in 0..query.atoms.len() {
        push_steps_of(alloc, downs, query, at, &mut steps)?;
    }
    Ok(steps)
}

fn push_steps_of(
    alloc: Global,
    downs: &Downs,
    query: &Query,
    at: usize,
    steps: &mut List<(FoldStep, Query)>,
) -> Result<(), AllocError>
    requires within { (a : AxiomOf) → In a downs.now.axioms → IsAxiomWithin downs.now.classes downs.now.links a }
    requires place { at < length query.now.atoms }
    requires head { length query.now.head < 2 ^ 32 - 1 }
    requires atoms { length query.now.atoms < 2 ^ 32 - 1 }
    ensures { OnOk result (AreAdded (λ s. s.atom ≡ at) downs.now.axioms query.now steps.old steps.new) }
{
    push_steps_at(alloc, downs, query, at, Dir::Fwd, steps)?;
    push_steps_at(alloc, downs, query, at, Dir::Back, steps)?;
    Ok(())
}

fn push_steps_at(
    alloc: Global,
    downs: &Downs,
    query: &Query,
    at: usize,
    end: Dir,
    steps: &mut List<(FoldStep, Query)>,
) -> Result<(), AllocError>
    requires within { (a : AxiomOf) → In a downs.now.axioms → IsAxiomWithin downs.now.classes downs.now.links a }
    requires place { at < length query.now.atoms }
    requires head { length query.now.head < 2 ^ 32 - 1 }
    requires atoms { length query.now.atoms < 2 ^ 32 - 1 }
    ensures { OnOk result (AreAdded (λ s. (s.atom ≡ at) × (s.end ≡ end)) downs.now.axioms query.now steps.old steps.new) }
{
    if !is_free_at(query, at, end) {
        return Ok(());
    }
    let births = births_of(alloc, downs, &query.atoms.items()[at], end)?;
    for birth in births.items() {
        push_steps_by(alloc, downs, query, at, end, *birth, steps)?;
    }
    Ok(())
}

fn is_free_at(query: &Query, at: usize, end: Dir) -> bool
    requires { at < length query.now.atoms }
    ensures { IsTrue result ↔ IsFree query.now at end }
{
    match arg_at(&query.atoms.items()[at], end) {
        Some(arg) => is_free(query, at, arg),
        None => false,
    }
}

fn push_steps_by(
    alloc: Global,
    downs: &Downs,
    query: &Query,
    at: usize,
    end: Dir,
    birth: (LinkId, Dir),
    steps: &mut List<(FoldStep, Query)>,
) -> Result<(), AllocError>
    requires within { (a : AxiomOf) → In a downs.now.axioms → IsAxiomWithin downs.now.classes downs.now.links a }
    requires free { IsFree query.now at end }
    requires link { birth.0.0 < downs.now.links }
    requires head { length query.now.head < 2 ^ 32 - 1 }
    requires atoms { length query.now.atoms < 2 ^ 32 - 1 }
    ensures { OnOk result (AreAdded (IsBy birth at end) downs.now.axioms query.now steps.old steps.new) }
{
    let lefts = downs.lefts(birth.0, birth.1);
    if lefts.is_empty() {
        return Ok(());
    }
    match cut_by(alloc, downs, query, at, end, birth)? {
        Some(cut) => push_folds(alloc, &cut, at, end, birth, lefts, steps),
        None => Ok(()),
    }
}

// What is left where a birth gives each atom of the argument at this end.
fn cut_by(
    alloc: Global,
    downs: &Downs,
    query: &Query,
    at: usize,
    end: Dir,
    birth: (LinkId, Dir),
) -> Result<Option<Cut>, AllocError>
    requires within { (a : AxiomOf) → In a downs.now.axioms → IsAxiomWithin downs.now.classes downs.now.links a }
    requires free { IsFree query.now at end }
    requires link { birth.0.0 < downs.now.links }
    ensures { IfOk result (λ cut. MatchOption cut ((c : CutOf) → IsCut downs.now.axioms birth query.now at end c → ⊥) (IsCut downs.now.axioms birth query.now at end)) }
{
    let atom = &query.atoms.items()[at];
    match arg_at(atom, end) {
        Some(arg) if are_born(downs, query, birth, atom, end, arg) => {
            cut_of(alloc, query, at, atom, end, arg)
        }
        _ => Ok(None),
    }
}

fn push_folds(
    alloc: Global,
    cut: &Cut,
    at: usize,
    end: Dir,
    birth: (LinkId, Dir),
    lefts: &[Basic],
    steps: &mut List<(FoldStep, Query)>,
) -> Result<(), AllocError>
    requires place { at < 2 ^ 32 - 1 }
    requires head { length cut.now.query.head < 2 ^ 32 - 1 }
    requires atoms { length cut.now.query.atoms + 1 < 2 ^ 32 - 1 }
    ensures { OnOk result (steps.new ≡ steps.old ++ map (told birth at end cut.now) lefts.now) }
{
    for left in lefts {
        let step = FoldStep {
            link: birth.0,
            dir: birth.1,
            left: *left,
            atom: at as u32,
            end,
        };
        steps.push((step, cut.folded(alloc, *left)?))?;
    }
    Ok(())
}
