//! The sorts of the places at which each variable of a query stands.
ghost use Rattle.std.specs.Prelude.{◌≡◌, ◌++◌, ◌∷◌, [], ◌==◌, not, if◌then◌else◌, ℕ, List, length, map, IfOk, OnOk};
ghost use Rattle.std.specs.List.{list_any};
ghost use Rattle.std.specs.Str.{bytes_eq};
ghost use Rattle.annotation_language.specs.Lines.{is_value_side, side_at, same_side, differ};
ghost use Rattle.annotation_language.specs.Shown.{shown_argument};
ghost use Rattle.annotation_language.specs.Resolved.{shown_placed, sides_at};
ghost use Rattle.annotation_language.specs.Sides.{noted_for, sides_in};

use crate::places::{Placed, is_value_side, same_side};
use crate::written::Argument;
use std::alloc::{AllocError, Global};
use std::collections::HashMap;
use vocabulary::Side;

/// For each variable the sorts of its places, in their order.
#[derive(Drop)]
pub(crate) struct Sides<'a> {
    by_variable: HashMap<&'a str, Vec<Side>>,
}

#[tactic(auto, using(std::proofs::lemmas::Grind::text_groups))]
fn add_side<'a>(
    found: &mut HashMap<&'a str, Vec<Side>>,
    v: &'a str,
    side: Side,
) -> Result<(), AllocError>
    ensures { OnOk result ((w : List ℕ) → noted_for found.new w ≡ noted_for found.old w ++ (if bytes_eq w v.now then side ∷ [] else [])) }
{
    found.entry(v)?.or_default().push(side)?;
    Ok(())
}

// Adds the sort of a place to those of the variable that stands there.
fn add_place<'a>(
    found: &mut HashMap<&'a str, Vec<Side>>,
    placed: &Placed<'a>,
) -> Result<(), AllocError>
    ensures { OnOk result ((w : List ℕ) → noted_for found.new w ≡ noted_for found.old w ++ side_at w (shown_argument placed.now.argument) placed.now.side) }
{
    match placed.argument {
        Argument::Variable(v) => add_side(found, v, placed.side),
        _ => Ok(()),
    }
}

impl<'a> Sides<'a> {
    #[tactic(auto, unfolding(crate::specs::Sides::sides_in))]
    pub(crate) fn of(alloc: Global, places: &[Placed<'a>]) -> Result<Sides<'a>, AllocError>
        ensures { IfOk result (λ sides. (v : List ℕ) → sides_in sides v ≡ sides_at v (map shown_placed places.now)) }
    {
        let mut by_variable = HashMap::new(alloc);
        for placed in places {
            add_place(&mut by_variable, placed)?;
        }
        Ok(Sides { by_variable })
    }

    /// The sorts of the places at which the variable stands.
    #[tactic(auto, unfolding(crate::specs::Sides::sides_in))]
    fn at(&self, v: &str) -> &[Side]
        ensures { result.now ≡ sides_in self.now v.now }
    {
        match self.by_variable.get(v) {
            Some(sides) => sides.as_slice(),
            None => &[],
        }
    }

    /// The variable stands at no place.
    pub(crate) fn has_none(&self, v: &str) -> bool
        ensures { result ≡ (length (sides_in self.now v.now) == 0) }
    {
        self.at(v).is_empty()
    }

    /// The variable stands at a place of values.
    pub(crate) fn has_values(&self, v: &str) -> bool
        ensures { result ≡ list_any is_value_side (sides_in self.now v.now) }
    {
        some_values(self.at(v))
    }

    /// The variable stands at places of two sorts.
    pub(crate) fn differ(&self, v: &str) -> bool
        ensures { result ≡ differ (sides_in self.now v.now) }
    {
        differ(self.at(v))
    }
}

fn some_values(sides: &[Side]) -> bool
    ensures { result ≡ list_any is_value_side sides.now }
{
    sides.iter().any(|side| is_value_side(*side))
}

// Some sort is another than this one.
fn some_other(side: Side, sides: &[Side]) -> bool
    ensures { result ≡ list_any (λ other. not (same_side side other)) sides.now }
{
    sides.iter().any(|other| !same_side(side, *other))
}

fn differ(sides: &[Side]) -> bool
    ensures { result ≡ differ sides.now }
{
    match sides {
        [] => false,
        [first, ..] => some_other(*first, sides),
    }
}
