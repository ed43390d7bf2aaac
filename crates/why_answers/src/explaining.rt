//! Which tuple is explained.
ghost use Rattle.std.specs.Prelude.{◌≡◌, ◌↔◌, List as ListOf, Some, IfOk};
ghost use Rattle.vocabulary.specs.declared.term.Term.{Term as TermOf};
ghost use Rattle.queries.specs.Occurrences.{HeadStands};
ghost use Rattle.certain_semantics.specs.Certain.{TermsKnown};
ghost use Rattle.mapping_facts.specs.Fits.{AreFit};
ghost use Rattle.conflict_checker.specs.Derivations.{items_at};
ghost use Rattle.why_answers.specs.Explanations.{Explains, Reads};

use crate::Why;
use crate::reading::{are_known, head_terms, reads};
use conflict_checker::{facts, item};
use dllite_axioms::Tbox;
use mapping_facts::Mapping;
use queries::Query;
use source_tables::Table;
use std::alloc::{AllocError, Global};
use vocabulary::{Fact, List, Term};

// Copies of the facts of these numbers, which count from 1.
fn named_facts(
    alloc: Global,
    facts: &[Fact],
    numbers: &[u32],
) -> Result<Option<List<Fact>>, AllocError>
    ensures { IfOk result (λ named. named ≡ items_at facts.now numbers.now) }
{
    let mut named = List::new(alloc);
    for number in numbers {
        match item(facts, *number) {
            Some(fact) => named.push(fact.copy(alloc)?)?,
            None => return Ok(None),
        }
    }
    Ok(Some(named))
}

// The tuple of known terms that the facts read as.
fn read_tuple(
    alloc: Global,
    query: &Query,
    facts: &[Fact],
) -> Result<Option<List<Term>>, AllocError>
    requires stands { HeadStands query.now }
    ensures { IfOk result (λ found. (tuple : ListOf TermOf) → (found ≡ Some tuple) ↔ (Reads query.now facts.now tuple × TermsKnown tuple)) }
{
    let atoms = query.atoms.items();
    if !reads(atoms, facts) {
        return Ok(None);
    }
    let Some(tuple) = head_terms(alloc, atoms, facts, query.head.items())? else {
        return Ok(None);
    };
    if are_known(tuple.items()) {
        Ok(Some(tuple))
    } else {
        Ok(None)
    }
}

/// The tuple that is explained, `None` exactly where none is: a step has no fact, a number is out of
/// range, or no replacement of the variables takes the atoms to the facts of their steps. The facts are
/// made anew from the tables, whoever made the explanation.
pub fn explains(
    alloc: Global,
    why: &Why,
    query: &Query,
    tbox: &Tbox,
    mappings: &[Mapping],
    tables: &[Table],
) -> Result<Option<List<Term>>, AllocError>
    requires stands { HeadStands query.now }
    requires fit { AreFit mappings.now }
    ensures { IfOk result (λ found. (tuple : ListOf TermOf) → (found ≡ Some tuple) ↔ Explains tbox.now mappings.now tables.now query.now why.now tuple) }
{
    if why.atoms.len() != query.atoms.len() {
        return Ok(None);
    }
    let Some(facts) = facts(alloc, why.steps.items(), tbox, mappings, tables)? else {
        return Ok(None);
    };
    match named_facts(alloc, facts.items(), why.atoms.items())? {
        Some(named) => read_tuple(alloc, query, named.items()),
        None => Ok(None),
    }
}
