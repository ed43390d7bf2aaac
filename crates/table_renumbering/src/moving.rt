//! Places, conditions and terms whose tables stand at other places.
ghost use Rattle.std.specs.Prelude.{◌≡◌, All, length, map, IfOk};
ghost use Rattle.mapping_facts.specs.Fits.{ConditionFits, PlaceFits, TermFits};
ghost use Rattle.table_renumbering.specs.Renumbering.{moved_condition, moved_pair, moved_place, moved_term};

use mapping_facts::{Condition, Place, RowTerm};
use std::alloc::{AllocError, Global};
use vocabulary::List;

fn move_place(places: &[u32], place: Place) -> Place
    requires { PlaceFits (length places.now) place }
    ensures { result ≡ moved_place places.now place }
{
    Place {
        table: places[place.table as usize],
        col: place.col,
    }
}

fn move_places(alloc: Global, places: &[u32], list: &[Place]) -> Result<List<Place>, AllocError>
    requires { All (PlaceFits (length places.now)) list.now }
    ensures { IfOk result (λ l. l ≡ map (moved_place places.now) list.now) }
{
    let mut moved = List::new(alloc);
    for place in list {
        moved.push(move_place(places, *place))?;
    }
    Ok(moved)
}

fn move_condition(
    alloc: Global,
    places: &[u32],
    condition: &Condition,
) -> Result<Condition, AllocError>
    requires { ConditionFits (length places.now) condition.now }
    ensures { IfOk result (λ c. c ≡ moved_condition places.now condition.now) }
{
    match condition {
        Condition::Equal(p, q) => {
            let first = move_place(places, *p);
            Ok(Condition::Equal(first, move_place(places, *q)))
        }
        Condition::EqualText(p, text) => {
            let place = move_place(places, *p);
            Ok(Condition::EqualText(place, text.copy(alloc)?))
        }
        Condition::Differ(p, q) => {
            let first = move_place(places, *p);
            Ok(Condition::Differ(first, move_place(places, *q)))
        }
        Condition::DifferText(p, text) => {
            let place = move_place(places, *p);
            Ok(Condition::DifferText(place, text.copy(alloc)?))
        }
        Condition::IsNull(p) => Ok(Condition::IsNull(move_place(places, *p))),
        Condition::NotNull(p) => Ok(Condition::NotNull(move_place(places, *p))),
    }
}

pub(crate) fn move_conditions(
    alloc: Global,
    places: &[u32],
    conditions: &[Condition],
) -> Result<List<Condition>, AllocError>
    requires { All (ConditionFits (length places.now)) conditions.now }
    ensures { IfOk result (λ l. l ≡ map (moved_condition places.now) conditions.now) }
{
    let mut moved = List::new(alloc);
    for condition in conditions {
        moved.push(move_condition(alloc, places, condition)?)?;
    }
    Ok(moved)
}

fn move_term(alloc: Global, places: &[u32], term: &RowTerm) -> Result<RowTerm, AllocError>
    requires { TermFits (length places.now) term.now }
    ensures { IfOk result (λ t. t ≡ moved_term places.now term.now) }
{
    match term {
        RowTerm::Iri(template, list) => {
            let template = template.copy(alloc)?;
            Ok(RowTerm::Iri(template, move_places(alloc, places, list.items())?))
        }
        RowTerm::Cell(kind, place) => Ok(RowTerm::Cell(*kind, move_place(places, *place))),
        RowTerm::Fixed(constant) => Ok(RowTerm::Fixed(constant.copy(alloc)?)),
    }
}

pub(crate) fn move_terms(
    alloc: Global,
    places: &[u32],
    terms: &[RowTerm],
) -> Result<List<RowTerm>, AllocError>
    requires { All (TermFits (length places.now)) terms.now }
    ensures { IfOk result (λ l. l ≡ map (moved_term places.now) terms.now) }
{
    let mut moved = List::new(alloc);
    for term in terms {
        moved.push(move_term(alloc, places, term)?)?;
    }
    Ok(moved)
}

pub(crate) fn move_pairs(
    alloc: Global,
    places: &[u32],
    pairs: &[(RowTerm, RowTerm)],
) -> Result<List<(RowTerm, RowTerm)>, AllocError>
    requires { All (λ pair. TermFits (length places.now) pair.0 × TermFits (length places.now) pair.1) pairs.now }
    ensures { IfOk result (λ l. l ≡ map (moved_pair places.now) pairs.now) }
{
    let mut moved = List::new(alloc);
    for pair in pairs {
        let first = move_term(alloc, places, &pair.0)?;
        moved.push((first, move_term(alloc, places, &pair.1)?))?;
    }
    Ok(moved)
}
