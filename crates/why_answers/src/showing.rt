//! Steps with facts for atoms.
ghost use Rattle.std.specs.Prelude.{◌≡◌, ◌<◌, ◌∷◌, [], ◌++◌, List as ListOf, All, Some, filter_map, length, slice_get, IfOk, OnOk};
ghost use Rattle.vocabulary.specs.Lists.{item};
ghost use Rattle.vocabulary.specs.declared.term.Fact.{Fact as FactOf};
ghost use Rattle.dllite_axioms.specs.declared.axioms.Axiom.{Axiom as AxiomOf};
ghost use Rattle.queries.specs.Matches.{Matched, Terms};
ghost use Rattle.source_tables.specs.Tables.{Loaded};
ghost use Rattle.mapping_facts.specs.declared.mapping.Mapping.{Mapping as MappingOf};
ghost use Rattle.why_answers.specs.Applying.{Applies, Runs};
ghost use Rattle.why_answers.specs.Showing.{AreLed, AreMarked, GoesOn, IsShown, Read, lead_facts, mark_facts};

use crate::finding::assign;
use crate::putting::put_chain;
use conflict_checker::Step;
use queries::Atom;
use std::alloc::{AllocError, Global};
use vocabulary::{Fact, List};

/// A fact, and the number of a step that has it.
#[derive(Debug, Drop)]
pub struct Mark {
    pub step: u32,
    pub fact: Fact,
}

/// A fact to which axioms lead from that of a step: their numbers count from 0.
#[derive(Debug, Drop)]
pub struct Lead {
    pub step: u32,
    pub chain: List<u32>,
    pub fact: Fact,
}

/// Steps, and marks for the atoms of a query, in their order.
#[derive(Debug, Drop)]
pub struct Shown {
    pub steps: List<Step>,
    pub marks: List<Mark>,
}

fn copies(alloc: Global, leads: &[Lead]) -> Result<Vec<Fact>, AllocError>
    ensures { IfOk result (λ v. v.items ≡ lead_facts leads.now) }
{
    let mut facts = Vec::new(alloc);
    for lead in leads {
        facts.push(lead.fact.copy(alloc)?)?;
    }
    Ok(facts)
}

/// The marks as leads that need no axiom.
pub fn plain(alloc: Global, marks: &[Mark]) -> Result<List<Lead>, AllocError>
    ensures facts { IfOk result (λ leads. lead_facts leads ≡ mark_facts marks.now) }
    ensures led { IfOk result (λ leads. (axioms : ListOf AxiomOf) (facts : ListOf FactOf) → AreMarked facts marks.now → AreLed axioms facts leads) }
{
    let mut leads = List::new(alloc);
    for mark in marks {
        leads.push(Lead {
            step: mark.step,
            chain: List::new(alloc),
            fact: mark.fact.copy(alloc)?,
        })?;
    }
    Ok(leads)
}

impl Shown {
    // Marks the fact of a lead.
    fn mark(&mut self, alloc: Global, lead: &Lead) -> Result<(), AllocError>
        ensures facts { OnOk result (mark_facts self.new.marks ≡ mark_facts self.old.marks ++ lead.now.fact ∷ []) }
        ensures shown { OnOk result (GoesOn (λ axioms facts. (f : FactOf) × (item facts lead.now.step ≡ Some f) × Applies axioms lead.now.chain f lead.now.fact) self.old self.new) }
    {
        let fact = lead.fact.copy(alloc)?;
        let step = put_chain(&mut self.steps, lead.chain.items(), lead.step)?;
        self.marks.push(Mark { step, fact })
    }
}

// Marks the facts of the leads at these places.
fn mark_all(
    alloc: Global,
    shown: &mut Shown,
    leads: &[Lead],
    places: &[usize],
) -> Result<(), AllocError>
    requires places { All (λ k. k < length leads.now) places.now }
    ensures facts { OnOk result (mark_facts shown.new.marks ≡ mark_facts shown.old.marks ++ filter_map (slice_get (lead_facts leads.now)) places.now) }
    ensures shown { OnOk result (GoesOn (λ axioms facts. AreLed axioms facts leads.now) shown.old shown.new) }
{
    let Some((place, rest)) = places.split_first() else {
        return Ok(());
    };
    shown.mark(alloc, &leads[*place])?;
    mark_all(alloc, shown, leads, rest)
}

/// Marks for the atoms among what the leads have.
pub fn settle(
    alloc: Global,
    steps: List<Step>,
    leads: &[Lead],
    atoms: &[Atom],
) -> Result<Shown, AllocError>
    requires read { (σ : Terms) × Matched (lead_facts leads.now) σ atoms.now }
    ensures read { IfOk result (λ shown. Read atoms.now (mark_facts shown.marks)) }
    ensures shown { IfOk result (λ shown. (axioms : ListOf AxiomOf) (mappings : ListOf MappingOf) (tables : ListOf Loaded) (facts : ListOf FactOf) → Runs axioms mappings tables steps facts → AreLed axioms facts leads.now → IsShown axioms mappings tables shown) }
{
    let facts = copies(alloc, leads)?;
    let Some(places) = assign(alloc, atoms, facts.as_slice())? else {
        unreachable!();
    };
    let mut shown = Shown {
        steps,
        marks: List::new(alloc),
    };
    mark_all(alloc, &mut shown, leads, places.as_slice())?;
    Ok(shown)
}
