//! The rules of queries, one function for each kind of fault.
ghost use Rattle.std.specs.Prelude.{◌≡◌, ◌≤◌, ◌==◌, ◌||◌, [], ◌++◌, length, map, None, IfOk};
ghost use Rattle.std.specs.List.{list_any};
ghost use Rattle.line_lexer.specs.Judging.{first_broken, first_passed};
ghost use Rattle.iri_templates.specs.Templates.{template_of};
ghost use Rattle.annotation_language.specs.Lines.{is_value, misfits, is_plain, has_bad_template, differ, is_value_side};
ghost use Rattle.annotation_language.specs.Shown.{shown_argument, shown_atom};
ghost use Rattle.annotation_language.specs.Resolved.{IsResolved, texts, shown_placed, places_of, is_unknown, sides_at};
ghost use Rattle.annotation_language.specs.Sides.{sides_in};
ghost use Rattle.annotation_language.specs.Reading.{broken_as};

use crate::places::{Placed, is_misapplied, is_unknown};
use crate::resolved::Resolved;
use crate::sides::Sides;
use crate::written::{Argument, WrittenAtom};
use iri_templates::{Template, TemplateFault};
use line_lexer::{Counted, LineFault};
use source_tables::read_value;
use std::alloc::{AllocError, Global};
use uml_model::Model;
use vocabulary::{Side, ValueKind};

// The text is a value of the kind.
pub(crate) fn is_value(alloc: Global, kind: ValueKind, text: &str) -> Result<bool, AllocError>
    ensures { IfOk result (λ is. is ≡ is_value kind text.now) }
{
    let value = read_value(alloc, kind, text, 0)?;
    Ok(value.is_some())
}

// The text is a template without holes.
fn is_plain(alloc: Global, text: &str) -> Result<bool, AllocError>
    ensures { IfOk result (λ is. is ≡ is_plain (template_of text.now)) }
{
    match Template::parse(alloc, text) {
        Ok(template) => Ok(template.holes() == 0),
        Err(TemplateFault::NoMemory) => Err(AllocError),
        Err(_) => Ok(false),
    }
}

impl<'a> Placed<'a> {
    // The argument is a constant of the other sort, or one that is not of its kind.
    fn misfits(&self, alloc: Global) -> Result<bool, AllocError>
        ensures { IfOk result (λ is. is ≡ misfits (shown_argument self.now.argument) self.now.side) }
    {
        match (self.argument, self.side) {
            (Argument::Constant(_), Side::Object) => Ok(true),
            (Argument::Constant(text), Side::Value(kind)) => Ok(!is_value(alloc, kind, text)?),
            (Argument::Iri(_), Side::Value(_)) => Ok(true),
            _ => Ok(false),
        }
    }

    fn has_bad_template(&self, alloc: Global) -> Result<bool, AllocError>
        ensures { IfOk result (λ is. is ≡ has_bad_template (shown_argument self.now.argument)) }
    {
        match self.argument {
            Argument::Iri(text) => Ok(!is_plain(alloc, text)?),
            _ => Ok(false),
        }
    }
}

fn some_misfits(alloc: Global, places: &[Placed<'_>]) -> Result<bool, AllocError>
    ensures { IfOk result (λ is. is ≡ list_any (λ placed. misfits placed.argument placed.side) (map shown_placed places.now)) }
{
    for placed in places {
        if placed.misfits(alloc)? {
            return Ok(true);
        }
    }
    Ok(false)
}

fn some_bad_template(alloc: Global, places: &[Placed<'_>]) -> Result<bool, AllocError>
    ensures { IfOk result (λ is. is ≡ list_any (λ placed. has_bad_template placed.argument) (map shown_placed places.now)) }
{
    for placed in places {
        if placed.has_bad_template(alloc)? {
            return Ok(true);
        }
    }
    Ok(false)
}

fn some_unknown(model: &Model, atoms: &[WrittenAtom<'_>]) -> bool
    ensures { result ≡ list_any (is_unknown model.now) (map shown_atom atoms.now) }
{
    for atom in atoms {
        if is_unknown(model, atom) {
            return true;
        }
    }
    false
}

fn some_misapplied(model: &Model, atoms: &[WrittenAtom<'_>]) -> bool
    ensures { result ≡ list_any (λ a. length (places_of model.now a) == 0) (map shown_atom atoms.now) }
{
    for atom in atoms {
        if is_misapplied(model, atom) {
            return true;
        }
    }
    false
}

// Some variable stands at places of two sorts.
fn some_mixed(sides: &Sides<'_>, variables: &[&str]) -> bool
    ensures { result ≡ list_any (λ v. differ (sides_in sides.now v)) (texts variables.now) }
{
    for v in variables {
        if sides.differ(v) {
            return true;
        }
    }
    false
}

// Some of the variables stands at a place of values.
fn some_valued(sides: &Sides<'_>, variables: &[&str]) -> bool
    ensures { result ≡ list_any (λ v. list_any is_value_side (sides_in sides.now v)) (texts variables.now) }
{
    for v in variables {
        if sides.has_values(v) {
            return true;
        }
    }
    false
}

// Some of the variables stands at no place.
fn some_unbound(sides: &Sides<'_>, variables: &[&str]) -> bool
    ensures { result ≡ list_any (λ v. length (sides_in sides.now v) == 0) (texts variables.now) }
{
    for v in variables {
        if sides.has_none(v) {
            return true;
        }
    }
    false
}

// A variable at two sorts, or one of these at values.
fn is_mixed(sides: &Sides<'_>, variables: &[&str], objects: &[&str]) -> bool
    ensures { result ≡ (list_any (λ v. differ (sides_in sides.now v)) (texts variables.now)
        || list_any (λ v. list_any is_value_side (sides_in sides.now v)) (texts objects.now)) }
{
    some_mixed(sides, variables) || some_valued(sides, objects)
}

// Whether variables stand where they may not, and whether some of the head stands at no place.
#[derive(Clone, Copy)]
struct Standing {
    mixed: bool,
    unbound: bool,
}

impl Standing {
    fn of(
        alloc: Global,
        places: &[Placed<'_>],
        variables: &[&str],
        objects: &[&str],
        head: &[&str],
    ) -> Result<Standing, AllocError>
        ensures mixed { IfOk result (λ s. s.mixed ≡ (list_any (λ v. differ (sides_at v (map shown_placed places.now))) (texts variables.now)
            || list_any (λ v. list_any is_value_side (sides_at v (map shown_placed places.now))) (texts objects.now))) }
        ensures unbound { IfOk result (λ s. s.unbound ≡ list_any (λ v. length (sides_at v (map shown_placed places.now)) == 0) (texts head.now)) }
    {
        let sides = Sides::of(alloc, places)?;
        Ok(Standing {
            mixed: is_mixed(&sides, variables, objects),
            unbound: some_unbound(&sides, head),
        })
    }
}

/// The first rule that is broken, else the first count that passes its number.
#[tactic(auto, using(crate::proofs::Judged::first_of_all))]
pub(crate) fn judged(
    rules: &[(bool, LineFault)],
    counts: &[(Counted, usize)],
    others: &[(Counted, usize)],
) -> Option<LineFault>
    ensures { result ≡ first_broken rules.now (counts.now ++ others.now) }
{
    if let Some(fault) = first_broken(rules) {
        return Some(fault);
    }
    if let Some(what) = first_passed(counts) {
        return Some(LineFault::Limit(what));
    }
    match first_passed(others) {
        Some(what) => Some(LineFault::Limit(what)),
        None => None,
    }
}

fn first_broken(rules: &[(bool, LineFault)]) -> Option<LineFault>
    ensures { result ≡ first_broken rules.now [] }
{
    for rule in rules {
        if rule.0 {
            return Some(rule.1);
        }
    }
    None
}

fn first_passed(counts: &[(Counted, usize)]) -> Option<Counted>
    ensures { result ≡ first_passed counts.now }
{
    for counted in counts {
        if counted.0.limit() < counted.1 as u64 {
            return Some(counted.0);
        }
    }
    None
}

/// What a line asks beside the rules of every query.
#[derive(Drop)]
pub(crate) struct Asks<'s, 'a> {
    /// Something that the line asks is not there.
    pub(crate) missing: bool,
    /// Something that the line says is there already.
    pub(crate) double: bool,
    /// The variables that have to be objects.
    pub(crate) objects: &'s [&'a str],
    pub(crate) bad_key: bool,
    /// What is counted beside the query's atoms and variables.
    pub(crate) others: &'s [(Counted, usize)],
}

/// The first rule that a line with a query breaks.
pub(crate) fn broken_query(
    alloc: Global,
    model: &Model,
    asked: &Resolved<'_, '_>,
    asks: &Asks<'_, '_>,
) -> Result<Option<LineFault>, AllocError>
    requires { IsResolved model.now asked.now }
    ensures first { IfOk result (λ o. o ≡ broken_as model.now asked.now asks.now) }
    ensures few { IfOk result (λ o. o ≡ None → length asked.now.variables.items ≤ 16) }
{
    let atoms = asked.query.atoms.as_slice();
    let places = asked.places.as_slice();
    let variables = asked.variables.as_slice();
    let head = asked.query.head.as_slice();
    let standing = Standing::of(alloc, places, variables, asks.objects, head)?;
    let rules = [
        (is_missing(model, asks.missing, atoms), LineFault::Unknown),
        (asks.double, LineFault::Double),
        (
            mismatch(alloc, model, atoms, places)?,
            LineFault::TypeMismatch,
        ),
        (some_bad_template(alloc, places)?, LineFault::BadTemplate),
        (standing.mixed, LineFault::MixedSort),
        (standing.unbound, LineFault::HeadUnbound),
        (asks.bad_key, LineFault::BadKey),
    ];
    let counts = [
        (Counted::Atoms, atoms.len()),
        (Counted::Variables, variables.len()),
        (Counted::Variables, head.len()),
    ];
    Ok(judged(&rules, &counts, asks.others))
}

// Something that the line asks is not there, or a name of an atom.
fn is_missing(model: &Model, missing: bool, atoms: &[WrittenAtom<'_>]) -> bool
    ensures { result ≡ (missing || list_any (is_unknown model.now) (map shown_atom atoms.now)) }
{
    missing || some_unknown(model, atoms)
}

// An atom with another number of arguments than its name asks, or a constant that does not fit.
fn mismatch(
    alloc: Global,
    model: &Model,
    atoms: &[WrittenAtom<'_>],
    places: &[Placed<'_>],
) -> Result<bool, AllocError>
    ensures { IfOk result (λ is. is ≡ (list_any (λ a. length (places_of model.now a) == 0) (map shown_atom atoms.now)
        || list_any (λ placed. misfits placed.argument placed.side) (map shown_placed places.now))) }
{
    if some_misapplied(model, atoms) {
        return Ok(true);
    }
    some_misfits(alloc, places)
}
