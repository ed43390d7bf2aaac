//! The images of a query, and of a union of queries.
ghost use Rattle.std.specs.Prelude.{◌≤◌, ◌↔◌, All, List as ListOf, length, IfOk};
ghost use Rattle.vocabulary.specs.Lists.{In, IsListOf};
ghost use Rattle.vocabulary.specs.declared.term.Term.{Term as TermOf};
ghost use Rattle.queries.specs.Occurrences.{HeadStands};
ghost use Rattle.queries.specs.Order.{tuple_cmp};
ghost use Rattle.mapping_facts.specs.Facts.{mapped_facts};
ghost use Rattle.mapping_facts.specs.Fits.{AreFit};
ghost use Rattle.query_images.specs.Images.{CanUnfold, IsImage, IsImageOfOne};

use crate::collecting::add_images;
use mapping_facts::Mapping;
use queries::Query;
use relation_join::{FEW, put_in_order, trim};
use source_tables::Table;
use std::alloc::{AllocError, Global};
use vocabulary::{List, Term};

/// The images of the query's head under its matches in the mapped facts: tuples in their order, each
/// once. Axioms are not looked at.
pub fn images(
    alloc: Global,
    query: &Query,
    mappings: &[Mapping],
    tables: &[Table],
) -> Result<List<List<Term>>, AllocError>
    requires stands { HeadStands query.now }
    requires few { length query.now.atoms ≤ 16 }
    requires fit { AreFit mappings.now }
    ensures { IfOk result (IsListOf tuple_cmp (IsImage (mapped_facts mappings.now tables.now) query.now)) }
{
    let mut found = Vec::new(alloc);
    add_images(alloc, query, mappings, tables, &mut found)?;
    put_in_order(&mut found)?;
    found.shrink_to_fit();
    Ok(List::from_vec(found))
}

/// The images of a union of queries: those of each of them. One query is unfolded and joined at a
/// time.
pub fn union_images(
    alloc: Global,
    queries: &[Query],
    mappings: &[Mapping],
    tables: &[Table],
) -> Result<List<List<Term>>, AllocError>
    requires queries { All CanUnfold queries.now }
    requires fit { AreFit mappings.now }
    ensures { IfOk result (IsListOf tuple_cmp (IsImageOfOne (mapped_facts mappings.now tables.now) queries.now)) }
{
    let mut found = all_images(alloc, queries, mappings, tables)?;
    put_in_order(&mut found)?;
    found.shrink_to_fit();
    Ok(List::from_vec(found))
}

fn all_images(
    alloc: Global,
    queries: &[Query],
    mappings: &[Mapping],
    tables: &[Table],
) -> Result<Vec<List<Term>>, AllocError>
    requires queries { All CanUnfold queries.now }
    requires fit { AreFit mappings.now }
    ensures { IfOk result (λ found. (ts : ListOf TermOf) → In ts found.items ↔ IsImageOfOne (mapped_facts mappings.now tables.now) queries.now ts) }
{
    let mut found = Vec::new(alloc);
    let mut most = FEW;
    for query in queries {
        add_images(alloc, query, mappings, tables, &mut found)?;
        most = trim(&mut found, most)?;
    }
    Ok(found)
}
