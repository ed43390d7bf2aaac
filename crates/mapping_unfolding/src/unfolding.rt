//! The unfolding of a query.
ghost use Rattle.std.specs.Prelude.{◌≡◌, ◌≤◌, ◌++◌, [], ◌∷◌, All, filter_map, length, map, IfOk, OnOk};
ghost use Rattle.mapping_facts.specs.Fits.{AreFit, RowQueryFits};
ghost use Rattle.mapping_unfolding.specs.Drafts.{HasAll, OnlyUnfold, empty_draft, head_term, unfolded_of};
ghost use Rattle.mapping_unfolding.specs.Unfoldings.{AreUnfoldings, HasOrigins, OriginsStand};
ghost use Rattle.queries.specs.Occurrences.{HeadStands};

use crate::Unfolded;
use crate::draft::{Binding, Draft};
use crate::extend::extend;
use crate::put::find;
use mapping_facts::{Mapping, RowQuery, RowTerm, SourceQuery};
use queries::{Arg, Atom, Query};
use std::alloc::{AllocError, Global};
use vocabulary::List;

fn push_head_term(
    alloc: Global,
    terms: &mut List<RowTerm>,
    arg: &Arg,
    bound: &[Binding],
) -> Result<(), AllocError>
    ensures { OnOk result (terms.new ≡ terms.old ++ filter_map (head_term bound.now) (arg.now ∷ [])) }
{
    match arg {
        Arg::Blank => Ok(()),
        Arg::Var(var) => match find(*var, bound) {
            Some(term) => terms.push(term.copy(alloc)?),
            None => Ok(()),
        },
        Arg::Fixed(constant) => terms.push(RowTerm::Fixed(constant.copy(alloc)?)),
    }
}

fn head_terms(alloc: Global, head: &[Arg], bound: &[Binding]) -> Result<List<RowTerm>, AllocError>
    ensures { IfOk result (λ l. l ≡ filter_map (head_term bound.now) head.now) }
{
    let mut terms = List::new(alloc);
    for arg in head {
        push_head_term(alloc, &mut terms, arg, bound)?;
    }
    Ok(terms)
}

fn finish(alloc: Global, draft: Draft, head: &[Arg]) -> Result<Unfolded, AllocError>
    ensures { IfOk result (λ u. u ≡ unfolded_of head.now draft) }
{
    let head = head_terms(alloc, head, draft.bound.items())?;
    let rows = RowQuery {
        query: draft.query,
        apart: List::new(alloc),
        head,
    };
    Ok(Unfolded {
        rows,
        origins: draft.origins,
    })
}

fn finish_all(alloc: Global, drafts: Vec<Draft>, head: &[Arg]) -> Result<List<Unfolded>, AllocError>
    ensures { IfOk result (λ l. l ≡ map (unfolded_of head.now) drafts.items) }
{
    let mut list = List::new(alloc);
    for draft in drafts {
        list.push(finish(alloc, draft, head)?)?;
    }
    Ok(list)
}

fn empty(alloc: Global) -> Draft
    ensures { result ≡ empty_draft }
{
    let query = SourceQuery {
        tables: List::new(alloc),
        conditions: List::new(alloc),
    };
    Draft {
        query,
        bound: List::new(alloc),
        origins: List::new(alloc),
    }
}

fn drafts_of(alloc: Global, atoms: &[Atom], mappings: &[Mapping]) -> Result<Vec<Draft>, AllocError>
    requires few { length atoms.now ≤ 16 }
    requires fit { AreFit mappings.now }
    ensures only { IfOk result (λ drafts. OnlyUnfold mappings.now atoms.now empty_draft [] drafts.items) }
    ensures all { IfOk result (λ drafts. HasAll mappings.now atoms.now empty_draft drafts.items) }
{
    let start = empty(alloc);
    let mut drafts = Vec::new(alloc);
    extend(alloc, mappings, atoms, &start, &mut drafts)?;
    Ok(drafts)
}

/// One row query for each choice of a target for each atom that can give answers together. A query
/// without atoms has one, over no tables.
pub fn unfold(
    alloc: Global,
    query: &Query,
    mappings: &[Mapping],
) -> Result<List<Unfolded>, AllocError>
    requires head { HeadStands query.now }
    requires few { length query.now.atoms ≤ 16 }
    requires fit { AreFit mappings.now }
    ensures exact { IfOk result (λ list. AreUnfoldings mappings.now query.now list) }
    ensures fitting { IfOk result (λ list. All (λ u. RowQueryFits u.rows) list) }
    ensures not_apart { IfOk result (λ list. All (λ u. u.rows.apart ≡ []) list) }
    ensures places { IfOk result (λ list. All (OriginsStand mappings.now query.now) list) }
    ensures origins { IfOk result (λ list. All (HasOrigins mappings.now query.now) list) }
{
    let drafts = drafts_of(alloc, query.atoms.items(), mappings)?;
    finish_all(alloc, drafts, query.head.items())
}
