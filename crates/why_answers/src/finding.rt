//! Assigning facts to atoms.
ghost use Rattle.std.specs.Prelude.{◌≡◌, ◌≤◌, ◌<◌, ◌+◌, ◌∷◌, [], ◌++◌, drop, length, IfOk, MatchOption, slice_get, Some};
ghost use Rattle.vocabulary.specs.declared.term.Fact.{Fact as FactOf};
ghost use Rattle.why_answers.specs.Finding.{FrontReads, NoneReads, ReadAt};

use crate::reading::reads;
use queries::Atom;
use std::alloc::{AllocError, Global};
use vocabulary::{Fact, List};

fn with_one(alloc: Global, facts: &[Fact], fact: &Fact) -> Result<List<Fact>, AllocError>
    ensures { IfOk result (λ l. l ≡ facts.now ++ fact.now ∷ []) }
{
    let mut copies = List::new(alloc);
    for fact in facts {
        copies.push(fact.copy(alloc)?)?;
    }
    copies.push(fact.copy(alloc)?)?;
    Ok(copies)
}

fn put_first(places: Vec<usize>, first: usize) -> Result<Vec<usize>, AllocError>
    ensures { IfOk result (λ v. v.items ≡ first ∷ places.items) }
{
    let mut places = places;
    places.insert(0, first)?;
    Ok(places)
}

// The first atoms have the named facts, and these are the rest; the next is tried at each fact, and with
// it those behind it.
#[cycle(search)]
fn search(
    alloc: Global,
    atoms: &[Atom],
    rest: &[Atom],
    facts: &[Fact],
    named: &[Fact],
) -> Result<Option<Vec<usize>>, AllocError>
    requires rest { drop (length named.now) atoms.now ≡ rest.now }
    requires few { length named.now ≤ length atoms.now }
    requires front { FrontReads atoms.now named.now }
    ensures { IfOk result (λ found. MatchOption found (NoneReads atoms.now facts.now named.now) (λ places. ReadAt atoms.now facts.now named.now places.items)) }
{
    let Some((_, behind)) = rest.split_first() else {
        return Ok(Some(Vec::new(alloc)));
    };
    for at in 0..facts.len() {
        if let Some(places) = attempt(alloc, atoms, behind, facts, named, at)? {
            return Ok(Some(places));
        }
    }
    Ok(None)
}

#[cycle(search)]
fn attempt(
    alloc: Global,
    atoms: &[Atom],
    rest: &[Atom],
    facts: &[Fact],
    named: &[Fact],
    at: usize,
) -> Result<Option<Vec<usize>>, AllocError>
    requires rest { drop (length named.now + 1) atoms.now ≡ rest.now }
    requires few { length named.now < length atoms.now }
    requires place { at < length facts.now }
    ensures { IfOk result (λ found. (f : FactOf) → slice_get facts.now at ≡ Some f → MatchOption found (NoneReads atoms.now facts.now (named.now ++ f ∷ [])) (λ places. ReadAt atoms.now facts.now named.now places.items)) }
{
    let owned = with_one(alloc, named, &facts[at])?;
    let named = owned.items();
    if !reads(&atoms[..named.len()], named) {
        return Ok(None);
    }
    match search(alloc, atoms, rest, facts, named)? {
        Some(places) => Ok(Some(put_first(places, at)?)),
        None => Ok(None),
    }
}

/// For each atom the place of a fact, so that one replacement takes the atoms, in order, to these;
/// `None` exactly where no replacement takes each atom to some fact.
pub(crate) fn assign(
    alloc: Global,
    atoms: &[Atom],
    facts: &[Fact],
) -> Result<Option<Vec<usize>>, AllocError>
    ensures { IfOk result (λ found. MatchOption found (NoneReads atoms.now facts.now []) (λ places. ReadAt atoms.now facts.now [] places.items)) }
{
    search(alloc, atoms, atoms, facts, &[])
}
