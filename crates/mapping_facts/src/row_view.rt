//! The text of a term over a tuple of rows, lent.
ghost use Rattle.std.specs.Prelude.{◌≡◌, ◌↔◌, IsTrue, IfSome, None, Some, length, option_map};
ghost use Rattle.vocabulary.specs.Terms.{text_of};
ghost use Rattle.vocabulary.specs.Texts.{text_cmp};
ghost use Rattle.mapping_facts.specs.Facts.{term_at};
ghost use Rattle.mapping_facts.specs.Fits.{TermFits};
ghost use Rattle.iri_templates.specs.Templates.{hole_texts};
ghost use Rattle.iri_templates.specs.Texts.{filled_text};
ghost use Rattle.mapping_facts.specs.RowViews.{placed_cells, row_place, row_starts, row_text};
ghost use Rattle.mapping_facts.specs.Tuples.{cell_of};

use crate::conditions::cell_at;
use crate::row_terms::PlacedCells;
use crate::{RowTerm, SourceQuery};
use iri_templates::{Cursor, Piece, Template, TermView, compare_pieces, write_plain};
use source_tables::Table;
use std::cmp::Ordering;

/// The text of a term over a tuple: a template over its cells, of which none is null, or a text as it
/// stands.
pub enum RowView<'a> {
    Iri(&'a Template, PlacedCells<'a>),
    Plain(&'a str),
}

fn iri_view<'a>(template: &'a Template, cells: PlacedCells<'a>) -> Option<RowView<'a>>
    requires { length cells.places.now ≡ length (hole_texts template.now) }
    ensures none { result ≡ None → filled_text template.now (placed_cells cells.entry) ≡ None }
    ensures some { IfSome result (λ v. filled_text template.now (placed_cells cells.entry) ≡ Some (row_text v)) }
{
    match TermView::new(template, &cells) {
        Some(_) => Some(RowView::Iri(template, cells)),
        None => None,
    }
}

impl<'a> RowView<'a> {
    /// The text of the term over the rows of these numbers, none where a cell is null.
    pub fn of(
        term: &'a RowTerm,
        query: &'a SourceQuery,
        tables: &'a [Table],
        rows: &'a [u32],
    ) -> Option<RowView<'a>>
        requires { TermFits (length query.now.tables) term.now }
        ensures none { result ≡ None → term_at (cell_of tables.now query.now.tables rows.now) term.now ≡ None }
        ensures some { IfSome result (λ v. option_map text_of (term_at (cell_of tables.now query.now.tables rows.now) term.now) ≡ Some (row_text v)) }
    {
        match term {
            RowTerm::Iri(template, places) => {
                let cells = PlacedCells {
                    places: places.items(),
                    query,
                    tables,
                    rows,
                };
                iri_view(template, cells)
            }
            RowTerm::Cell(_, place) => match cell_at(query, tables, rows, *place) {
                Some(text) => Some(RowView::Plain(text)),
                None => None,
            },
            RowTerm::Fixed(term) => Some(RowView::Plain(term.text().text())),
        }
    }

    /// The order of the two texts by their bytes.
    pub fn text_cmp(&self, other: &RowView<'_>) -> Ordering
        ensures { result ≡ text_cmp (row_text self.now) (row_text other.now) }
    {
        match (self, other) {
            (RowView::Iri(template, cells), RowView::Iri(other, more)) => {
                TermView::over(*template, cells).text_cmp(&TermView::over(*other, more))
            }
            (RowView::Plain(a), RowView::Plain(b)) => a.as_bytes().cmp(b.as_bytes()),
            _ => compare_pieces(self, other),
        }
    }
}

impl Piece for RowView<'_> {
    ghost text = { row_text };

    ghost place = { row_place };

    ghost starts = { row_starts };

    fn write_to(&self, at: &mut Cursor, buf: &mut [u8]) -> usize {
        match self {
            RowView::Iri(template, cells) => TermView::over(*template, cells).write_to(at, buf),
            RowView::Plain(text) => write_plain(text, at, buf),
        }
    }
}
