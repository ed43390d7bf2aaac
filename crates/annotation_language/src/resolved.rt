//! A query over a model.
ghost use Rattle.std.specs.Prelude.{◌≡◌, ◌≢◌, [], Some, None, IfOk, IfErr, OnOk, get_or, map, take};
ghost use Rattle.uml_model.specs.Rules.{class_named, link_named};
ghost use Rattle.annotation_language.specs.Lines.{first_side, second, query_of};
ghost use Rattle.annotation_language.specs.Shown.{shown_query};
ghost use Rattle.annotation_language.specs.Resolved.{IsResolved, texts, shown_placed, sides_at};
ghost use Rattle.annotation_language.specs.Reading.{broken_as};

use crate::places::{Placed, all_places, side_of};
use crate::rules::{Asks, broken_query};
use crate::variables::variables_of;
use crate::written::Asked;
use line_lexer::LineFault;
use queries::Query;
use std::alloc::{AllocError, Global};
use uml_model::Model;
use vocabulary::Side;

/// A query with its variables in the order of their numbers, and the places of its atoms with their sorts.
#[derive(Drop)]
pub(crate) struct Resolved<'q, 'a> {
    pub(crate) query: &'q Asked<'a>,
    pub(crate) variables: Vec<&'a str>,
    pub(crate) places: Vec<Placed<'a>>,
}

impl<'q, 'a> Resolved<'q, 'a> {
    pub(crate) fn new(
        alloc: Global,
        model: &Model,
        query: &'q Asked<'a>,
    ) -> Result<Resolved<'q, 'a>, AllocError>
        ensures resolved { IfOk result (λ r. IsResolved model.now r) }
        ensures query { IfOk result (λ r. r.query.now ≡ query.now) }
    {
        let variables = variables_of(alloc, query)?;
        let places = all_places(alloc, model, query.atoms.as_slice())?;
        Ok(Resolved {
            query,
            variables,
            places,
        })
    }

    /// The sort of the values that the query gives: that of the second head variable, Object where it stands nowhere.
    pub(crate) fn value_side(&self) -> Side
        ensures { result ≡ first_side (sides_at (second (shown_query self.now.query.now)) (map shown_placed self.now.places.items)) }
    {
        match side_of(self.places.as_slice(), second(self.query.head.as_slice())) {
            Some(side) => side,
            None => Side::Object,
        }
    }

    /// The query, or the first rule that a line with it breaks.
    pub(crate) fn checked(
        &self,
        alloc: Global,
        model: &Model,
        asks: &Asks<'_, '_>,
    ) -> Result<Query, LineFault>
        requires { IsResolved model.now self.now }
        ensures found { IfOk result (λ q. q ≡ query_of (class_named model.now) (link_named model.now) (shown_query self.now.query.now)) }
        ensures sound { OnOk result (broken_as model.now self.now asks.now ≡ None) }
        ensures fault { IfErr result (λ e. e ≢ LineFault.NoMemory → broken_as model.now self.now asks.now ≡ Some e) }
    {
        if let Some(fault) = broken_query(alloc, model, self, asks)? {
            return Err(fault);
        }
        let query = self.query(alloc, model)?;
        Ok(query)
    }
}

// The second name, or an empty text.
fn second<'a>(head: &[&'a str]) -> &'a str
    ensures { result.now ≡ get_or (texts head.now) 1 [] }
{
    match head {
        [_, second, ..] => second,
        _ => "",
    }
}

/// The first name alone.
pub(crate) fn first_alone<'s, 'a>(head: &'s [&'a str]) -> &'s [&'a str]
    ensures { texts result.now ≡ take 1 (texts head.now) }
{
    if head.is_empty() {
        return head;
    }
    let (first, _) = head.split_at(1);
    first
}
