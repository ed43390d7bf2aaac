//! Collecting the images of queries, each tuple as often as it is found.
ghost use Rattle.std.specs.Prelude.{◌≡◌, ◌↔◌, ◌++◌, All, IfOk, List as ListOf, OnOk, length};
ghost use Rattle.std.specs.List.{flat_map};
ghost use Rattle.vocabulary.specs.Lists.{In};
ghost use Rattle.vocabulary.specs.declared.term.Term.{Term as TermOf};
ghost use Rattle.mapping_facts.specs.Facts.{mapped_facts};
ghost use Rattle.mapping_facts.specs.Fits.{AreFit, RowQueryFits};
ghost use Rattle.mapping_facts.specs.RowQueries.{row_tuples};
ghost use Rattle.mapping_unfolding.specs.Unfoldings.{GivesHead};
ghost use Rattle.query_images.specs.Cuts.{IsCut};
ghost use Rattle.relation_join.specs.Joins.{Gains};
ghost use Rattle.query_images.specs.Images.{CanUnfold, IsImage, head_at};
ghost use Rattle.table_renumbering.specs.Tuples.{GivesTerms};

use crate::choosing::{is_wide, last_reached};
use crate::cutting::{Cut, cut_at};
use join_engine::heads;
use mapping_facts::laws::have_texts;
use mapping_facts::{Mapping, RowQuery, terms_of};
use mapping_unfolding::{Unfolded, unfold};
use queries::Query;
use relation_join::{FEW, join, put_in_order, trim};
use source_tables::Table;
use std::alloc::{AllocError, Global};
use vocabulary::{List, Term};

// The terms of one tuple of row numbers.
fn add_tuple(
    alloc: Global,
    query: &RowQuery,
    tables: &[Table],
    rows: &[u32],
    out: &mut Vec<List<Term>>,
) -> Result<(), AllocError>
    requires { RowQueryFits query.now }
    ensures { OnOk result (out.new.items ≡ out.old.items ++ head_at tables.now query.now rows.now) }
{
    if let Some(terms) = terms_of(alloc, query.head.items(), &query.query, tables, rows)? {
        out.push(terms)?;
    }
    Ok(())
}

// The terms of each of these tuples.
fn add_tuples(
    alloc: Global,
    query: &RowQuery,
    tables: &[Table],
    found: &[List<u32>],
    out: &mut Vec<List<Term>>,
) -> Result<(), AllocError>
    requires { RowQueryFits query.now }
    ensures { OnOk result (out.new.items ≡ out.old.items ++ flat_map (head_at tables.now query.now) found.now) }
{
    for rows in found {
        add_tuple(alloc, query, tables, rows.items(), out)?;
    }
    Ok(())
}

// The terms of the tuples that the row query asks for, found at no more tuples than the head needs.
fn add_row_query(
    alloc: Global,
    query: &RowQuery,
    tables: &[Table],
    out: &mut Vec<List<Term>>,
) -> Result<(), AllocError>
    requires { RowQueryFits query.now }
    ensures { OnOk result (Gains (GivesTerms tables.now query.now (row_tuples tables.now query.now)) out.old.items out.new.items) }
{
    let found = heads(alloc, query, tables)?;
    add_tuples(alloc, query, tables, found.tuples.items(), out)
}

// The terms of each tuple of each row query. Tuples that came before are dropped as the list grows.
fn add_row_queries(
    alloc: Global,
    list: &[Unfolded],
    tables: &[Table],
    out: &mut Vec<List<Term>>,
) -> Result<(), AllocError>
    requires { All (λ u. RowQueryFits u.rows) list.now }
    ensures { OnOk result (Gains (GivesHead tables.now list.now) out.old.items out.new.items) }
{
    let mut most = out.len().saturating_mul(2).max(FEW);
    for unfolded in list {
        add_row_query(alloc, &unfolded.rows, tables, out)?;
        most = trim(out, most)?;
    }
    Ok(())
}

// The images of a query, which is unfolded as it stands.
fn add_unfolded(
    alloc: Global,
    query: &Query,
    mappings: &[Mapping],
    tables: &[Table],
    out: &mut Vec<List<Term>>,
) -> Result<(), AllocError>
    requires query { CanUnfold query.now }
    requires fit { AreFit mappings.now }
    ensures { OnOk result (Gains (IsImage (mapped_facts mappings.now tables.now) query.now) out.old.items out.new.items) }
{
    have_texts(tables);
    let list = unfold(alloc, query, mappings)?;
    add_row_queries(alloc, list.items(), tables, out)
}

// The images of a query that is unfolded as it stands, each once.
fn unfolded(
    alloc: Global,
    query: &Query,
    mappings: &[Mapping],
    tables: &[Table],
) -> Result<Vec<List<Term>>, AllocError>
    requires query { CanUnfold query.now }
    requires fit { AreFit mappings.now }
    ensures { IfOk result (λ found. (ts : ListOf TermOf) → In ts found.items ↔ IsImage (mapped_facts mappings.now tables.now) query.now ts) }
{
    let mut found = Vec::new(alloc);
    add_unfolded(alloc, query, mappings, tables, &mut found)?;
    put_in_order(&mut found)?;
    Ok(found)
}

// The images of a query that is cut, where those of its second part are known.
fn joined(
    alloc: Global,
    query: &Query,
    cut: &Cut,
    others: &[List<Term>],
    mappings: &[Mapping],
    tables: &[Table],
) -> Result<Vec<List<Term>>, AllocError>
    requires query { CanUnfold query.now }
    requires fit { AreFit mappings.now }
    requires cut { IsCut query.now cut.now.one cut.now.rest cut.now.sides.vars cut.now.sides.more }
    requires single { length cut.now.one.atoms ≡ 1 }
    requires head { cut.now.sides.head ≡ query.now.head }
    requires others { (ts : ListOf TermOf) → In ts others.now ↔ IsImage (mapped_facts mappings.now tables.now) cut.now.rest ts }
    ensures { IfOk result (λ found. (ts : ListOf TermOf) → In ts found.items ↔ IsImage (mapped_facts mappings.now tables.now) query.now ts) }
{
    if others.is_empty() {
        return Ok(Vec::new(alloc));
    }
    let rows = unfolded(alloc, &cut.one, mappings, tables)?;
    join(alloc, &cut.sides, &rows, others)
}

// Hands all of these tuples over, in no order.
fn add_all(mut found: Vec<List<Term>>, out: &mut Vec<List<Term>>) -> Result<(), AllocError>
    ensures { OnOk result (Gains (λ ts. In ts found.items) out.old.items out.new.items) }
{
    while let Some(tuple) = found.pop() {
        out.push(tuple)?;
    }
    Ok(())
}

/// The images of one query. One that unfolds into many row queries is cut in two, and its parts are
/// joined.
pub(crate) fn add_images(
    alloc: Global,
    query: &Query,
    mappings: &[Mapping],
    tables: &[Table],
    out: &mut Vec<List<Term>>,
) -> Result<(), AllocError>
    requires query { CanUnfold query.now }
    requires fit { AreFit mappings.now }
    ensures { OnOk result (Gains (IsImage (mapped_facts mappings.now tables.now) query.now) out.old.items out.new.items) }
{
    if !is_wide(query.atoms.items(), mappings) {
        return add_unfolded(alloc, query, mappings, tables, out);
    }
    let at = last_reached(alloc, query.atoms.items())?;
    let cut = cut_at(alloc, query, at)?;
    let mut others = Vec::new(alloc);
    add_images(alloc, &cut.rest, mappings, tables, &mut others)?;
    put_in_order(&mut others)?;
    let found = joined(alloc, query, &cut, &others, mappings, tables)?;
    add_all(found, out)
}
