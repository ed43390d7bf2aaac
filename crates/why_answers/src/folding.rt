//! The search through the folds of a query for one that has a match.
ghost use Rattle.std.specs.Prelude.{◌≡◌, ◌↔◌, ◌≤◌, ◌<◌, ◌-◌, ◌^◌, ◌∷◌, [], IfOk, OnOk, length};
ghost use Rattle.vocabulary.specs.Lists.{In};
ghost use Rattle.dllite_axioms.specs.Within.{IsAxiomWithin};
ghost use Rattle.dllite_axioms.specs.declared.axioms.Axiom.{Axiom as AxiomOf};
ghost use Rattle.mapping_facts.specs.Facts.{mapped_facts};
ghost use Rattle.mapping_facts.specs.Fits.{AreFit};
ghost use Rattle.std.specs.List.{list_any};
ghost use Rattle.why_answers.specs.Folding.{AddsFolds, IsFoundAt, SomeMatches, has_query};

use crate::matching::match_of;
use fold_rewriting::{FoldStep, fold_steps};
use mapping_facts::Mapping;
use negative_closure::Downs;
use queries::Query;
use source_tables::Table;
use std::alloc::{AllocError, Global};
use vocabulary::{Fact, List};

/// A fold of a query, and the fold step that gave it from that at an earlier place; none for the normal
/// form of the query itself.
#[derive(Drop)]
pub struct Node {
    pub query: Query,
    pub from: Option<(usize, FoldStep)>,
}

/// Folds of a query, and facts for the atoms of the one at a place.
#[derive(Drop)]
pub struct Found {
    pub nodes: List<Node>,
    pub at: usize,
    pub facts: List<Fact>,
}

fn has_query(node: &Node, query: &Query) -> bool
    ensures { result ≡ has_query query.now node.now }
{
    node.query.compare(query).is_eq()
}

fn is_among(nodes: &[Node], query: &Query) -> bool
    ensures { result ≡ list_any (has_query query.now) nodes.now }
{
    nodes.iter().any(|node| has_query(node, query))
}

fn push_fold(
    alloc: Global,
    nodes: &mut List<Node>,
    from: usize,
    step: FoldStep,
    query: &Query,
) -> Result<(), AllocError>
    ensures { OnOk result (AddsFolds from ((step, query.now) ∷ []) nodes.old nodes.new) }
{
    if is_among(nodes.items(), query) {
        return Ok(());
    }
    let query = query.copy(alloc)?;
    nodes.push(Node {
        query,
        from: Some((from, step)),
    })
}

fn push_folds(
    alloc: Global,
    nodes: &mut List<Node>,
    from: usize,
    steps: &[(FoldStep, Query)],
) -> Result<(), AllocError>
    ensures { OnOk result (AddsFolds from steps.now nodes.old nodes.new) }
{
    for step in steps {
        push_fold(alloc, nodes, from, step.0, &step.1)?;
    }
    Ok(())
}

/// Goes through the folds of the query, those of few fold steps first, up to one with a match in the
/// facts of the mappings.
pub fn search(
    alloc: Global,
    downs: &Downs,
    mappings: &[Mapping],
    tables: &[Table],
    query: &Query,
) -> Result<Found, AllocError>
    requires within { (a : AxiomOf) → In a downs.now.axioms → IsAxiomWithin downs.now.classes downs.now.links a }
    requires fit { AreFit mappings.now }
    requires head { query.now.head ≡ [] }
    requires few { length query.now.atoms ≤ 16 }
    requires some { SomeMatches downs.now.axioms query.now (mapped_facts mappings.now tables.now) }
    ensures { IfOk result (IsFoundAt downs.now.axioms query.now mappings.now tables.now) }
{
    let first = query.normal(alloc)?;
    let mut nodes = List::new(alloc);
    nodes.push(Node {
        query: first,
        from: None,
    })?;
    let mut at = 0;
    while at < nodes.len() {
        let member = &nodes.items()[at].query;
        if let Some(facts) = match_of(alloc, member, mappings, tables)? {
            return Ok(Found { nodes, at, facts });
        }
        let steps = fold_steps(alloc, downs, member)?;
        push_folds(alloc, &mut nodes, at, steps.items())?;
        at += 1;
    }
    unreachable!()
}
