//! Places, conditions and terms of tables that stand behind others.
ghost use Rattle.std.specs.Prelude.{◌≡◌, ◌-◌, ◌^◌, ◌++◌, All, map, IfOk, OnOk};
ghost use Rattle.mapping_facts.specs.declared.query.Condition.TheVariants.{NotNull};
ghost use Rattle.mapping_facts.specs.Defined.{defined_target, defined_term};
ghost use Rattle.mapping_facts.specs.Fits.{ConditionFits, PlaceFits, TargetFits, TermFits};
ghost use Rattle.mapping_unfolding.specs.Shifts.{shifted_condition, shifted_place, shifted_term};

use mapping_facts::{Condition, Place, RowTerm, Target};
use std::alloc::{AllocError, Global};
use vocabulary::List;

fn shift_place(n: u32, place: Place) -> Place
    requires { PlaceFits (2 ^ 32 - n) place }
    ensures { result ≡ shifted_place n place }
{
    Place {
        table: n + place.table,
        col: place.col,
    }
}

fn shift_places(alloc: Global, n: u32, places: &[Place]) -> Result<List<Place>, AllocError>
    requires { All (PlaceFits (2 ^ 32 - n)) places.now }
    ensures { IfOk result (λ l. l ≡ map (shifted_place n) places.now) }
{
    let mut shifted = List::new(alloc);
    for place in places {
        shifted.push(shift_place(n, *place))?;
    }
    Ok(shifted)
}

fn shift_condition(alloc: Global, n: u32, condition: &Condition) -> Result<Condition, AllocError>
    requires { ConditionFits (2 ^ 32 - n) condition.now }
    ensures { IfOk result (λ c. c ≡ shifted_condition n condition.now) }
{
    match condition {
        Condition::Equal(p, q) => Ok(Condition::Equal(shift_place(n, *p), shift_place(n, *q))),
        Condition::EqualText(p, text) => {
            Ok(Condition::EqualText(shift_place(n, *p), text.copy(alloc)?))
        }
        Condition::Differ(p, q) => Ok(Condition::Differ(shift_place(n, *p), shift_place(n, *q))),
        Condition::DifferText(p, text) => {
            Ok(Condition::DifferText(shift_place(n, *p), text.copy(alloc)?))
        }
        Condition::IsNull(p) => Ok(Condition::IsNull(shift_place(n, *p))),
        Condition::NotNull(p) => Ok(Condition::NotNull(shift_place(n, *p))),
    }
}

/// A row term whose tables stand behind n others.
pub fn shift_term(alloc: Global, n: u32, term: &RowTerm) -> Result<RowTerm, AllocError>
    requires { TermFits (2 ^ 32 - n) term.now }
    ensures { IfOk result (λ r. r ≡ shifted_term n term.now) }
{
    match term {
        RowTerm::Iri(template, places) => {
            let template = template.copy(alloc)?;
            Ok(RowTerm::Iri(template, shift_places(alloc, n, places.items())?))
        }
        RowTerm::Cell(kind, place) => Ok(RowTerm::Cell(*kind, shift_place(n, *place))),
        RowTerm::Fixed(constant) => Ok(RowTerm::Fixed(constant.copy(alloc)?)),
    }
}

/// Adds the conditions of tables that stand behind n others.
pub fn push_conditions(
    alloc: Global,
    out: &mut List<Condition>,
    n: u32,
    conditions: &[Condition],
) -> Result<(), AllocError>
    requires { All (ConditionFits (2 ^ 32 - n)) conditions.now }
    ensures { OnOk result (out.new ≡ out.old ++ map (shifted_condition n) conditions.now) }
{
    for condition in conditions {
        out.push(shift_condition(alloc, n, condition)?)?;
    }
    Ok(())
}

fn push_not_nulls(out: &mut List<Condition>, n: u32, places: &[Place]) -> Result<(), AllocError>
    requires { All (PlaceFits (2 ^ 32 - n)) places.now }
    ensures { OnOk result (out.new ≡ out.old ++ map (shifted_condition n) (map NotNull places.now)) }
{
    for place in places {
        out.push(Condition::NotNull(shift_place(n, *place)))?;
    }
    Ok(())
}

fn push_defined_term(out: &mut List<Condition>, n: u32, term: &RowTerm) -> Result<(), AllocError>
    requires { TermFits (2 ^ 32 - n) term.now }
    ensures { OnOk result (out.new ≡ out.old ++ map (shifted_condition n) (defined_term term.now)) }
{
    match term {
        RowTerm::Iri(_, places) => push_not_nulls(out, n, places.items()),
        RowTerm::Cell(_, place) => out.push(Condition::NotNull(shift_place(n, *place))),
        RowTerm::Fixed(_) => Ok(()),
    }
}

/// Adds the conditions under which the terms of a target are defined, whose tables stand behind n
/// others.
pub fn push_defined(out: &mut List<Condition>, n: u32, target: &Target) -> Result<(), AllocError>
    requires { TargetFits (2 ^ 32 - n) target.now }
    ensures { OnOk result (out.new ≡ out.old ++ map (shifted_condition n) (defined_target target.now)) }
{
    match target {
        Target::InClass(_, term) => push_defined_term(out, n, term),
        Target::Linked(_, first, second) => {
            push_defined_term(out, n, first)?;
            push_defined_term(out, n, second)
        }
    }
}
