//! The places of the atoms of a query, and the sorts that they ask.
ghost use Rattle.std.specs.Prelude.{◌≡◌, ◌==◌, [], ◌∷◌, ◌++◌, length, map, IfOk, OnOk};
ghost use Rattle.std.specs.List.{flat_map};
ghost use Rattle.uml_model.specs.Rules.{same_kind};
ghost use Rattle.annotation_language.specs.Lines.{is_value_side, same_side};
ghost use Rattle.annotation_language.specs.Shown.{shown_argument, shown_atom};
ghost use Rattle.annotation_language.specs.Resolved.{shown_placed, places_of, is_unknown, is_of, sides_at, first_of};

use crate::written::{Argument, WrittenAtom};
use std::alloc::{AllocError, Global};
use uml_model::Model;
use vocabulary::{Side, ValueKind};

/// An argument, and the sort that its place asks.
#[derive(Clone, Copy)]
pub(crate) struct Placed<'a> {
    pub(crate) argument: Argument<'a>,
    pub(crate) side: Side,
}

// The name of the atom is that of no class and no link.
#[tactic(auto, unfolding(crate::specs::Resolved::is_unknown))]
pub(crate) fn is_unknown(model: &Model, atom: &WrittenAtom<'_>) -> bool
    ensures { result ≡ is_unknown model.now (shown_atom atom.now) }
{
    let name = atom.name();
    !(model.class_named(name).is_some() || model.link_named(name).is_some())
}

// The name of the atom asks another number of arguments.
pub(crate) fn is_misapplied(model: &Model, atom: &WrittenAtom<'_>) -> bool
    ensures { result ≡ (length (places_of model.now (shown_atom atom.now)) == 0) }
{
    match atom {
        WrittenAtom::One(p, _) => model.class_named(p).is_none(),
        WrittenAtom::Two(p, _, _) => model.link_named(p).is_none(),
    }
}

// The places of all atoms, none for one whose name asks another number of arguments.
pub(crate) fn all_places<'a>(
    alloc: Global,
    model: &Model,
    atoms: &[WrittenAtom<'a>],
) -> Result<Vec<Placed<'a>>, AllocError>
    ensures { IfOk result (λ v. map shown_placed v.items ≡ flat_map (places_of model.now) (map shown_atom atoms.now)) }
{
    let mut found = Vec::new(alloc);
    for atom in atoms {
        push_places(model, atom, &mut found)?;
    }
    Ok(found)
}

fn push_places<'a>(
    model: &Model,
    atom: &WrittenAtom<'a>,
    found: &mut Vec<Placed<'a>>,
) -> Result<(), AllocError>
    ensures { OnOk result (map shown_placed found.new.items ≡ map shown_placed found.old.items ++ places_of model.now (shown_atom atom.now)) }
{
    match atom {
        WrittenAtom::One(p, a) => {
            if model.class_named(p).is_some() {
                push_place(*a, Side::Object, found)?;
            }
            Ok(())
        }
        WrittenAtom::Two(p, a, b) => match model.link_named(p) {
            Some((_, side)) => {
                push_place(*a, Side::Object, found)?;
                push_place(*b, side, found)
            }
            None => Ok(()),
        },
    }
}

fn push_place<'a>(
    argument: Argument<'a>,
    side: Side,
    found: &mut Vec<Placed<'a>>,
) -> Result<(), AllocError>
    ensures { OnOk result (map shown_placed found.new.items ≡ map shown_placed found.old.items ++ record { argument = shown_argument argument.entry; side = side } ∷ []) }
{
    found.push(Placed { argument, side })?;
    Ok(())
}

impl<'a> Placed<'a> {
    // This variable stands here.
    fn is_of(&self, v: &str) -> bool
        ensures { result ≡ is_of v.now (shown_placed self.now) }
    {
        match self.argument {
            Argument::Variable(w) => v == w,
            _ => false,
        }
    }
}

pub(crate) fn is_value_side(side: Side) -> bool
    ensures { result ≡ is_value_side side }
{
    match side {
        Side::Object => false,
        Side::Value(_) => true,
    }
}

fn same_kind(a: ValueKind, b: ValueKind) -> bool
    ensures { result ≡ same_kind a b }
{
    match (a, b) {
        (ValueKind::Text, ValueKind::Text) => true,
        (ValueKind::Int, ValueKind::Int) => true,
        (ValueKind::Bool, ValueKind::Bool) => true,
        (ValueKind::Time, ValueKind::Time) => true,
        _ => false,
    }
}

pub(crate) fn same_side(a: Side, b: Side) -> bool
    ensures { result ≡ same_side a b }
{
    match (a, b) {
        (Side::Object, Side::Object) => true,
        (Side::Value(k), Side::Value(l)) => same_kind(k, l),
        _ => false,
    }
}

// The sort of the first place at which the variable stands.
pub(crate) fn side_of(places: &[Placed<'_>], v: &str) -> Option<Side>
    ensures { result ≡ first_of (sides_at v.now (map shown_placed places.now)) }
{
    for placed in places {
        if placed.is_of(v) {
            return Some(placed.side);
        }
    }
    None
}
