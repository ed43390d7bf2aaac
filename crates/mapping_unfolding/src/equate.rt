//! When two row terms are equal.
ghost use Rattle.std.specs.Prelude.{◌≡◌, ◌↔◌, [], ◌∷◌, All, Some, length, map, IfOk, IsTrue};
ghost use Rattle.iri_templates.specs.Templates.{hole_texts};
ghost use Rattle.mapping_facts.specs.declared.term.RowTerm.TheVariants.{Cell as CellTerm, Fixed as FixedTerm, Iri as IriTerm};
ghost use Rattle.mapping_unfolding.specs.Equating.{Equates, IsPlaced, IsWhole, met_condition as spec_met, text_conditions as spec_texts};
ghost use Rattle.vocabulary.specs.declared.term.Term.{Named, Value};

use iri_templates::{Meet, Template, Unifier, unify};
use mapping_facts::{Condition, Place, RowTerm};
use std::alloc::{AllocError, Global};
use vocabulary::{List, Name, Term, ValueKind};

// A condition on the holes of two templates, as one on the places that fill them.
fn met_condition(
    alloc: Global,
    left: &[Place],
    right: &[Place],
    meet: &Meet,
) -> Result<Condition, AllocError>
    requires { IsPlaced (length left.now) (length right.now) meet.now }
    ensures { IfOk result (λ c. c ≡ spec_met left.now right.now meet.now) }
{
    match meet {
        Meet::Same(i, j) => Ok(Condition::Equal(left[*i as usize], right[*j as usize])),
        Meet::First(i, text) => Ok(Condition::EqualText(left[*i as usize], text.copy(alloc)?)),
        Meet::Second(j, text) => Ok(Condition::EqualText(right[*j as usize], text.copy(alloc)?)),
    }
}

fn met_conditions(
    alloc: Global,
    left: &[Place],
    right: &[Place],
    meets: &[Meet],
) -> Result<List<Condition>, AllocError>
    requires { All (IsPlaced (length left.now) (length right.now)) meets.now }
    ensures { IfOk result (λ cs. cs ≡ map (spec_met left.now right.now) meets.now) }
{
    let mut conditions = List::new(alloc);
    for meet in meets {
        conditions.push(met_condition(alloc, left, right, meet)?)?;
    }
    Ok(conditions)
}

fn equate_iris(
    alloc: Global,
    a: &Template,
    ps: &[Place],
    b: &Template,
    qs: &[Place],
) -> Result<Option<List<Condition>>, AllocError>
    requires left { length ps.now ≡ length (hole_texts a.now) }
    requires right { length qs.now ≡ length (hole_texts b.now) }
    ensures { IfOk result (λ o. Equates (IriTerm a.now ps.now) (IriTerm b.now qs.now) o) }
{
    match unify(alloc, a, b)? {
        Unifier::Never => Ok(None),
        Unifier::When(meets) => {
            let conditions = met_conditions(alloc, ps, qs, meets.items())?;
            Ok(Some(conditions))
        }
    }
}

// Each place has its text.
fn text_conditions(
    alloc: Global,
    places: &[Place],
    texts: &[Name],
) -> Result<List<Condition>, AllocError>
    requires { length texts.now ≡ length places.now }
    ensures { IfOk result (λ cs. cs ≡ spec_texts places.now texts.now) }
{
    let mut conditions = List::new(alloc);
    for i in 0..places.len() {
        conditions.push(Condition::EqualText(places[i], texts[i].copy(alloc)?))?;
    }
    Ok(conditions)
}

fn equate_iri(
    alloc: Global,
    iri: &Name,
    template: &Template,
    places: &[Place],
) -> Result<Option<List<Condition>>, AllocError>
    requires { length places.now ≡ length (hole_texts template.now) }
    ensures { IfOk result (λ o. Equates (FixedTerm (Named iri.now)) (IriTerm template.now places.now) o) }
{
    match template.match_text(alloc, iri.text())? {
        Some(texts) => {
            let conditions = text_conditions(alloc, places, texts.items())?;
            Ok(Some(conditions))
        }
        None => Ok(None),
    }
}

fn one(alloc: Global, condition: Condition) -> Result<Option<List<Condition>>, AllocError>
    ensures { IfOk result (λ o. o ≡ Some (condition ∷ [])) }
{
    let mut conditions = List::new(alloc);
    conditions.push(condition)?;
    Ok(Some(conditions))
}

fn same_kind(kind: ValueKind, other: ValueKind) -> bool
    ensures { IsTrue result ↔ (kind ≡ other) }
{
    kind == other
}

fn equate_cells(
    alloc: Global,
    kind: ValueKind,
    place: Place,
    other: ValueKind,
    second: Place,
) -> Result<Option<List<Condition>>, AllocError>
    ensures { IfOk result (λ o. Equates (CellTerm kind place) (CellTerm other second) o) }
{
    if same_kind(kind, other) {
        one(alloc, Condition::Equal(place, second))
    } else {
        Ok(None)
    }
}

fn equate_value(
    alloc: Global,
    kind: ValueKind,
    text: &Name,
    other: ValueKind,
    place: Place,
) -> Result<Option<List<Condition>>, AllocError>
    ensures { IfOk result (λ o. Equates (FixedTerm (Value kind text.now)) (CellTerm other place) o) }
{
    if same_kind(kind, other) {
        one(alloc, Condition::EqualText(place, text.copy(alloc)?))
    } else {
        Ok(None)
    }
}

fn equate_constants(
    alloc: Global,
    constant: &Term,
    other: &Term,
) -> Result<Option<List<Condition>>, AllocError>
    ensures { IfOk result (λ o. Equates (FixedTerm constant.now) (FixedTerm other.now) o) }
{
    if constant.same(other) {
        Ok(Some(List::new(alloc)))
    } else {
        Ok(None)
    }
}

fn constant_and_iri(
    alloc: Global,
    constant: &Term,
    template: &Template,
    places: &[Place],
) -> Result<Option<List<Condition>>, AllocError>
    requires { length places.now ≡ length (hole_texts template.now) }
    ensures { IfOk result (λ o. Equates (FixedTerm constant.now) (IriTerm template.now places.now) o) }
{
    match constant {
        Term::Named(iri) => equate_iri(alloc, iri, template, places),
        Term::Value(_, _) => Ok(None),
        Term::New(_, _, _) => Ok(None),
    }
}

fn constant_and_cell(
    alloc: Global,
    constant: &Term,
    kind: ValueKind,
    place: Place,
) -> Result<Option<List<Condition>>, AllocError>
    ensures { IfOk result (λ o. Equates (FixedTerm constant.now) (CellTerm kind place) o) }
{
    match constant {
        Term::Named(_) => Ok(None),
        Term::Value(own, text) => equate_value(alloc, *own, text, kind, place),
        Term::New(_, _, _) => Ok(None),
    }
}

/// The conditions under which a row term is this constant, none where it never is.
pub fn equate_constant(
    alloc: Global,
    constant: &Term,
    term: &RowTerm,
) -> Result<Option<List<Condition>>, AllocError>
    requires { IsWhole term.now }
    ensures { IfOk result (λ o. Equates (FixedTerm constant.now) term.now o) }
{
    match term {
        RowTerm::Iri(template, places) => {
            constant_and_iri(alloc, constant, template, places.items())
        }
        RowTerm::Cell(kind, place) => constant_and_cell(alloc, constant, *kind, *place),
        RowTerm::Fixed(other) => equate_constants(alloc, constant, other),
    }
}

fn equate_with_iri(
    alloc: Global,
    template: &Template,
    places: &[Place],
    term: &RowTerm,
) -> Result<Option<List<Condition>>, AllocError>
    requires left { length places.now ≡ length (hole_texts template.now) }
    requires right { IsWhole term.now }
    ensures { IfOk result (λ o. Equates (IriTerm template.now places.now) term.now o) }
{
    match term {
        RowTerm::Iri(other, others) => {
            equate_iris(alloc, template, places, other, others.items())
        }
        RowTerm::Cell(_, _) => Ok(None),
        RowTerm::Fixed(constant) => constant_and_iri(alloc, constant, template, places),
    }
}

fn equate_with_cell(
    alloc: Global,
    kind: ValueKind,
    place: Place,
    term: &RowTerm,
) -> Result<Option<List<Condition>>, AllocError>
    ensures { IfOk result (λ o. Equates (CellTerm kind place) term.now o) }
{
    match term {
        RowTerm::Iri(_, _) => Ok(None),
        RowTerm::Cell(other, second) => equate_cells(alloc, kind, place, *other, *second),
        RowTerm::Fixed(constant) => constant_and_cell(alloc, constant, kind, place),
    }
}

/// The conditions under which two row terms are equal, none where they never are.
pub fn equate(
    alloc: Global,
    left: &RowTerm,
    right: &RowTerm,
) -> Result<Option<List<Condition>>, AllocError>
    requires left { IsWhole left.now }
    requires right { IsWhole right.now }
    ensures { IfOk result (λ o. Equates left.now right.now o) }
{
    match left {
        RowTerm::Iri(template, places) => {
            equate_with_iri(alloc, template, places.items(), right)
        }
        RowTerm::Cell(kind, place) => equate_with_cell(alloc, *kind, *place, right),
        RowTerm::Fixed(constant) => equate_constant(alloc, constant, right),
    }
}
