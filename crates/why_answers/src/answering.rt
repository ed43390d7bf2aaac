//! Why a tuple is an answer.
ghost use Rattle.std.specs.Prelude.{◌≡◌, ◌<◌, ◌≤◌, ◌+◌, ◌-◌, ◌^◌, length, map, IfOk};
ghost use Rattle.vocabulary.specs.Lists.{In};
ghost use Rattle.dllite_axioms.specs.Within.{IsAxiomWithin};
ghost use Rattle.dllite_axioms.specs.declared.axioms.Axiom.{Axiom as AxiomOf};
ghost use Rattle.queries.specs.Occurrences.{HeadStands, KnownConstants};
ghost use Rattle.certain_semantics.specs.Certain.{IsCertain};
ghost use Rattle.mapping_facts.specs.Facts.{mapped_facts};
ghost use Rattle.mapping_facts.specs.Fits.{AreFit};
ghost use Rattle.mapping_facts.specs.declared.mapping.Mapping.{Mapping as MappingOf};
ghost use Rattle.mapping_facts.specs.Within.{AreTargetsWithin, with_targets};
ghost use Rattle.why_answers.specs.Explanations.{Explains};

use crate::Why;
use crate::asking::asked;
use crate::folding::search;
use crate::showing::{Mark, Shown};
use crate::unwinding::{known_marks, unwind};
use dllite_axioms::Tbox;
use mapping_facts::Mapping;
use mapping_saturation::saturate;
use negative_closure::Downs;
use queries::Query;
use source_tables::Table;
use std::alloc::{AllocError, Global};
use vocabulary::{List, Term};

fn numbers(alloc: Global, marks: &[Mark]) -> Result<List<u32>, AllocError>
    ensures { IfOk result (λ l. l ≡ map (λ m. m.step) marks.now) }
{
    let mut numbers = List::new(alloc);
    for mark in marks {
        numbers.push(mark.step)?;
    }
    Ok(numbers)
}

/// An explanation of a certain answer. The folds of the query with the tuple in the places of its head's
/// variables are gone through, those of few fold steps first, up to one that known facts match. These
/// facts have derivations, and the fold steps that led to the fold are followed back: each adds the rules
/// from what its left side says of a term to the fresh term that is born of it, and on to the atoms that
/// it took away. Of several explanations it is not always the shortest.
pub fn why(
    alloc: Global,
    tbox: &Tbox,
    classes: u32,
    links: u32,
    mappings: &[Mapping],
    tables: &[Table],
    query: &Query,
    tuple: &[Term],
) -> Result<Why, AllocError>
    requires few_classes { classes ≤ 400 }
    requires few_links { links ≤ 600 }
    requires few_axioms { length tbox.now.axioms < 2 ^ 32 - 1 }
    requires within { (a : AxiomOf) → In a tbox.now.axioms → IsAxiomWithin classes links a }
    requires targets { (m : MappingOf) → In m mappings.now → AreTargetsWithin classes links m.targets }
    requires fit { AreFit mappings.now }
    requires few_mappings { length mappings.now + length (with_targets mappings.now) < 2 ^ 32 }
    requires stands { HeadStands query.now }
    requires known { KnownConstants query.now }
    requires few { length query.now.atoms ≤ 16 }
    requires certain { IsCertain tbox.now.axioms (mapped_facts mappings.now tables.now) query.now tuple.now }
    ensures { IfOk result (λ why. Explains tbox.now mappings.now tables.now query.now why tuple.now) }
{
    let downs = Downs::of(alloc, tbox, classes, links)?;
    let saturated = saturate(alloc, mappings, &downs)?;
    let asked = asked(alloc, query, tuple)?;
    let found = search(alloc, &downs, saturated.items(), tables, &asked)?;
    let shown = known_marks(alloc, found.facts.items(), &downs, mappings, tables)?;
    let nodes = found.nodes.items();
    let shown = unwind(alloc, tbox.axioms(), &downs, &asked, nodes, found.at, shown)?;
    let Shown { steps, marks } = shown;
    let atoms = numbers(alloc, marks.items())?;
    Ok(Why { steps, atoms })
}
