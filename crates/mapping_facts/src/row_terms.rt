//! The terms that a tuple of rows gives.
ghost use Rattle.std.specs.Prelude.{◌≡◌, is_some, length, map, IfOk};
ghost use Rattle.std.specs.List.{All, list_all};
ghost use Rattle.mapping_facts.specs.Facts.{term_at};
ghost use Rattle.mapping_facts.specs.Fits.{TermFits};
ghost use Rattle.mapping_facts.specs.RowQueries.{are_apart, is_defined, terms_at};
ghost use Rattle.mapping_facts.specs.Tuples.{cell_of};

use crate::conditions::cell_at;
use crate::{Place, RowTerm, SourceQuery};
use iri_templates::HoleCells;
use source_tables::Table;
use std::alloc::{AllocError, Global};
use vocabulary::{List, Name, Term};

/// The cells at these places over one tuple.
#[derive(Clone, Copy)]
pub struct PlacedCells<'a> {
    pub places: &'a [Place],
    pub query: &'a SourceQuery,
    pub tables: &'a [Table],
    pub rows: &'a [u32],
}

impl HoleCells for PlacedCells<'_> {
    ghost cells = { λ c. map (cell_of c.tables.now c.query.now.tables c.rows.now) c.places.now };

    fn hole(&self, i: u32) -> Option<&str> {
        let place = self.places.get(i as usize)?;
        cell_at(self.query, self.tables, self.rows, *place)
    }
}

/// The term over the rows of these numbers, one of each table of the query; none where a cell is
/// null.
pub fn term_of(
    alloc: Global,
    term: &RowTerm,
    query: &SourceQuery,
    tables: &[Table],
    rows: &[u32],
) -> Result<Option<Term>, AllocError>
    requires { TermFits (length query.now.tables) term.now }
    ensures { IfOk result (λ found. found ≡ term_at (cell_of tables.now query.now.tables rows.now) term.now) }
{
    match term {
        RowTerm::Iri(template, places) => {
            let cells = PlacedCells {
                places: places.items(),
                query,
                tables,
                rows,
            };
            Ok(template.fill(alloc, &cells)?.map(Term::Named))
        }
        RowTerm::Cell(kind, place) => match cell_at(query, tables, rows, *place) {
            Some(text) => Ok(Some(Term::Value(*kind, Name::new(alloc, text)?))),
            None => Ok(None),
        },
        RowTerm::Fixed(term) => Ok(Some(term.copy(alloc)?)),
    }
}

/// The terms of a head, none where one of them is not defined.
pub fn terms_of(
    alloc: Global,
    head: &[RowTerm],
    query: &SourceQuery,
    tables: &[Table],
    rows: &[u32],
) -> Result<Option<List<Term>>, AllocError>
    requires { All (TermFits (length query.now.tables)) head.now }
    ensures { IfOk result (λ found. found ≡ terms_at (cell_of tables.now query.now.tables rows.now) head.now) }
{
    let mut terms = List::from_vec(Vec::with_capacity(alloc, head.len())?);
    for term in head {
        match term_of(alloc, term, query, tables, rows)? {
            Some(found) => terms.push(found)?,
            None => return Ok(None),
        }
    }
    Ok(Some(terms))
}

fn are_texts(places: &[Place], query: &SourceQuery, tables: &[Table], rows: &[u32]) -> bool
    ensures { result ≡ list_all (λ p. is_some (cell_of tables.now query.now.tables rows.now p)) places.now }
{
    places
        .iter()
        .all(|place| cell_at(query, tables, rows, *place).is_some())
}

/// Whether no cell of the term is null. It takes no memory.
pub fn is_defined(term: &RowTerm, query: &SourceQuery, tables: &[Table], rows: &[u32]) -> bool
    ensures { result ≡ is_defined (cell_of tables.now query.now.tables rows.now) term.now }
{
    match term {
        RowTerm::Iri(_, places) => are_texts(places.items(), query, tables, rows),
        RowTerm::Cell(_, place) => cell_at(query, tables, rows, *place).is_some(),
        RowTerm::Fixed(_) => true,
    }
}

/// Whether both terms are defined, and have different texts.
pub fn are_apart(
    alloc: Global,
    pair: &(RowTerm, RowTerm),
    query: &SourceQuery,
    tables: &[Table],
    rows: &[u32],
) -> Result<bool, AllocError>
    requires { TermFits (length query.now.tables) pair.now.0 × TermFits (length query.now.tables) pair.now.1 }
    ensures { IfOk result (λ apart. apart ≡ are_apart (cell_of tables.now query.now.tables rows.now) pair.now) }
{
    let first = term_of(alloc, &pair.0, query, tables, rows)?;
    let second = term_of(alloc, &pair.1, query, tables, rows)?;
    match (&first, &second) {
        (Some(a), Some(b)) => Ok(!a.text().same(b.text())),
        _ => Ok(false),
    }
}
