//! Fold steps followed back.
ghost use Rattle.std.specs.Prelude.{◌≡◌, ◌<◌, ◌-◌, ◌^◌, [], ◌∷◌, ◌++◌, List as ListOf, Some, IfOk, OnOk, length, slice_get};
ghost use Rattle.queries.specs.Normal.{normal_form};
ghost use Rattle.why_answers.specs.declared.folding.Node.{Node as NodeOf};
ghost use Rattle.vocabulary.specs.Lists.{In};
ghost use Rattle.vocabulary.specs.declared.term.Fact.{Fact as FactOf};
ghost use Rattle.dllite_axioms.specs.Within.{IsAxiomWithin};
ghost use Rattle.dllite_axioms.specs.declared.axioms.Axiom.{Axiom as AxiomOf};
ghost use Rattle.queries.specs.declared.query.Query.{Query as QueryOf};
ghost use Rattle.source_tables.specs.Tables.{Loaded};
ghost use Rattle.mapping_facts.specs.Fits.{AreFit};
ghost use Rattle.mapping_facts.specs.declared.mapping.Mapping.{Mapping as MappingOf};
ghost use Rattle.fold_rewriting.specs.Steps.{FoldAt};
ghost use Rattle.why_answers.specs.Folding.{AreNodes};
ghost use Rattle.why_answers.specs.Showing.{IsShown, Read, mark_facts};
ghost use Rattle.why_answers.specs.Unwinding.{IsAtNode, IsDerivable};

use crate::bearing::leads_of;
use crate::folding::Node;
use crate::putting::put_behind;
use crate::showing::{Mark, Shown, plain, settle};
use dllite_axioms::Axiom;
use fact_derivation::derive;
use fold_rewriting::FoldStep;
use mapping_facts::Mapping;
use negative_closure::Downs;
use queries::Query;
use source_tables::Table;
use std::alloc::{AllocError, Global};
use vocabulary::{Fact, List};

fn mark_known(
    alloc: Global,
    shown: &mut Shown,
    fact: &Fact,
    downs: &Downs,
    mappings: &[Mapping],
    tables: &[Table],
) -> Result<(), AllocError>
    requires fit { AreFit mappings.now }
    requires fact { IsDerivable downs.now mappings.now tables.now fact.now }
    ensures facts { OnOk result (mark_facts shown.new.marks ≡ mark_facts shown.old.marks ++ fact.now ∷ []) }
    ensures shown { OnOk result (IsShown downs.now.axioms mappings.now tables.now shown.old → IsShown downs.now.axioms mappings.now tables.now shown.new) }
{
    let Some(steps) = derive(alloc, fact, downs, mappings, tables)? else {
        unreachable!();
    };
    let fact = fact.copy(alloc)?;
    let step = put_behind(alloc, &mut shown.steps, steps.items(), 0)?;
    shown.marks.push(Mark { step, fact })
}

/// Marks for known facts that some round of the chase holds.
pub(crate) fn known_marks(
    alloc: Global,
    facts: &[Fact],
    downs: &Downs,
    mappings: &[Mapping],
    tables: &[Table],
) -> Result<Shown, AllocError>
    requires fit { AreFit mappings.now }
    requires facts { (f : FactOf) → In f facts.now → IsDerivable downs.now mappings.now tables.now f }
    ensures facts { IfOk result (λ shown. mark_facts shown.marks ≡ facts.now) }
    ensures shown { IfOk result (IsShown downs.now.axioms mappings.now tables.now) }
{
    let mut shown = Shown {
        steps: List::new(alloc),
        marks: List::new(alloc),
    };
    for fact in facts {
        mark_known(alloc, &mut shown, fact, downs, mappings, tables)?;
    }
    Ok(shown)
}

// Marks for what the fold step was taken from.
fn back(
    alloc: Global,
    axioms: &[Axiom],
    downs: &Downs,
    query: &Query,
    step: &FoldStep,
    shown: Shown,
) -> Result<Shown, AllocError>
    requires axioms { axioms.now ≡ downs.now.axioms }
    requires few { length axioms.now < 2 ^ 32 - 1 }
    requires within { (a : AxiomOf) → In a downs.now.axioms → IsAxiomWithin downs.now.classes downs.now.links a }
    requires head { query.now.head ≡ [] }
    requires step { (r : QueryOf) × FoldAt downs.now.axioms query.now step.now r × Read r.atoms (mark_facts shown.marks) }
    ensures read { IfOk result (λ new. Read query.now.atoms (mark_facts new.marks)) }
    ensures shown { IfOk result (λ new. (mappings : ListOf MappingOf) (tables : ListOf Loaded) → IsShown downs.now.axioms mappings tables shown → IsShown downs.now.axioms mappings tables new) }
{
    let Shown { steps, marks } = shown;
    let leads = leads_of(alloc, axioms, downs, query, step, marks.items())?;
    settle(alloc, steps, leads.items(), query.atoms.items())
}

// Marks for a query from those for its normal form.
fn settled(alloc: Global, query: &Query, shown: Shown) -> Result<Shown, AllocError>
    requires head { query.now.head ≡ [] }
    requires read { Read (normal_form query.now).atoms (mark_facts shown.marks) }
    ensures read { IfOk result (λ new. Read query.now.atoms (mark_facts new.marks)) }
    ensures shown { IfOk result (λ new. (axioms : ListOf AxiomOf) (mappings : ListOf MappingOf) (tables : ListOf Loaded) → IsShown axioms mappings tables shown → IsShown axioms mappings tables new) }
{
    let Shown { steps, marks } = shown;
    let leads = plain(alloc, marks.items())?;
    settle(alloc, steps, leads.items(), query.atoms.items())
}

fn query_at(nodes: &[Node], at: usize) -> &Query
    requires { at < length nodes.now }
    ensures { (n : NodeOf) → slice_get nodes.now at ≡ Some n → result.now ≡ n.query }
{
    &nodes[at].query
}

fn from_at(nodes: &[Node], at: usize) -> Option<(usize, FoldStep)>
    requires { at < length nodes.now }
    ensures { (n : NodeOf) → slice_get nodes.now at ≡ Some n → result ≡ n.from }
{
    nodes[at].from
}

/// Marks for the query from those for the fold at a place, by the fold steps that led to it.
pub(crate) fn unwind(
    alloc: Global,
    axioms: &[Axiom],
    downs: &Downs,
    query: &Query,
    nodes: &[Node],
    at: usize,
    shown: Shown,
) -> Result<Shown, AllocError>
    requires axioms { axioms.now ≡ downs.now.axioms }
    requires few { length axioms.now < 2 ^ 32 - 1 }
    requires within { (a : AxiomOf) → In a downs.now.axioms → IsAxiomWithin downs.now.classes downs.now.links a }
    requires head { query.now.head ≡ [] }
    requires nodes { AreNodes downs.now.axioms query.now nodes.now }
    requires node { IsAtNode nodes.now at (mark_facts shown.marks) }
    ensures read { IfOk result (λ new. Read query.now.atoms (mark_facts new.marks)) }
    ensures shown { IfOk result (λ new. (mappings : ListOf MappingOf) (tables : ListOf Loaded) → IsShown downs.now.axioms mappings tables shown → IsShown downs.now.axioms mappings tables new) }
{
    let Some((from, step)) = from_at(nodes, at) else {
        return settled(alloc, query, shown);
    };
    let shown = back(alloc, axioms, downs, query_at(nodes, from), &step, shown)?;
    unwind(alloc, axioms, downs, query, nodes, from, shown)
}
