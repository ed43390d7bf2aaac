//! Mappings over one small table.
ghost use Rattle.std.specs.Prelude.{◌≡◌, ◌≤◌, if◌then◌else◌, length, IfOk, IfSome};
ghost use Rattle.mapping_facts.specs.Fits.{AreFit, ConditionFits, MappingFits, QueryFits, TargetFits, TermFits};

use iri_templates::Template;
use mapping_facts::{Condition, Mapping, Place, RowTerm, SourceQuery, Target};
use std::alloc::{AllocError, Global};
use std::test::Fail;
use vocabulary::{ClassId, ColId, LinkId, List, Name, TableId};

pub fn place(table: u32, col: u32) -> Place
    ensures { result.table ≡ table }
{
    Place {
        table,
        col: ColId(col),
    }
}

// The object of a column of the first table.
fn object(alloc: Global, col: u32) -> Result<RowTerm, Fail>
    ensures { IfOk result (TermFits 1) }
{
    let template = Template::parse(alloc, "http://e/{x.a}")?;
    if template.holes() != 1 {
        return Err(Fail::new("not one hole"));
    }
    let mut places = List::new(alloc);
    places.push(place(0, col))?;
    Ok(RowTerm::Iri(template, places))
}

fn member(alloc: Global, class: u32, col: u32) -> Result<Target, Fail>
    ensures { IfOk result (TargetFits 1) }
{
    Ok(Target::InClass(ClassId(class), object(alloc, col)?))
}

// From each b to its a.
fn link(alloc: Global) -> Result<Target, Fail>
    ensures { IfOk result (TargetFits 1) }
{
    let from = object(alloc, 1)?;
    Ok(Target::Linked(LinkId(0), from, object(alloc, 0)?))
}

fn tables(alloc: Global, twice: bool) -> Result<List<TableId>, AllocError>
    ensures { IfOk result (λ list. length list ≡ (if twice then 2 else 1)) }
{
    let mut tables = List::new(alloc);
    tables.push(TableId(0))?;
    if twice {
        tables.push(TableId(0))?;
    }
    Ok(tables)
}

// The only table, as often as the places of the condition name it.
fn over(alloc: Global, twice: bool, condition: Option<Condition>) -> Result<SourceQuery, AllocError>
    requires { IfSome condition (ConditionFits (if twice then 2 else 1)) }
    ensures tables { IfOk result (λ q. length q.tables ≡ (if twice then 2 else 1)) }
    ensures fits { IfOk result QueryFits }
{
    let tables = tables(alloc, twice)?;
    let mut conditions = List::new(alloc);
    if let Some(condition) = condition {
        conditions.push(condition)?;
    }
    Ok(SourceQuery { tables, conditions })
}

fn gives(alloc: Global, query: SourceQuery, target: Target) -> Result<Mapping, AllocError>
    requires some { 1 ≤ length query.tables }
    requires few { length query.tables ≤ 6 }
    requires query { QueryFits query }
    requires target { TargetFits 1 target }
    ensures { IfOk result MappingFits }
{
    let name = Name::new(alloc, "m")?;
    let mut targets = List::new(alloc);
    targets.push(target)?;
    Ok(Mapping {
        name,
        query,
        targets,
    })
}

// Without a condition.
fn at_each_row(alloc: Global, target: Target) -> Result<Mapping, AllocError>
    requires { TargetFits 1 target }
    ensures { IfOk result MappingFits }
{
    gives(alloc, over(alloc, false, None)?, target)
}

// `x.b = x.b` gives A at x.a.
fn own(alloc: Global) -> Result<Mapping, Fail>
    ensures { IfOk result MappingFits }
{
    let same = Condition::Equal(place(0, 1), place(0, 1));
    let query = over(alloc, false, Some(same))?;
    Ok(gives(alloc, query, member(alloc, 0, 0)?)?)
}

// Without a condition x.b is in B.
fn all(alloc: Global) -> Result<Mapping, Fail>
    ensures { IfOk result MappingFits }
{
    Ok(at_each_row(alloc, member(alloc, 1, 1)?)?)
}

// `x.b <> y.a` gives C at x.a.
fn other(alloc: Global) -> Result<Mapping, Fail>
    ensures { IfOk result MappingFits }
{
    let differ = Condition::Differ(place(0, 1), place(1, 0));
    let query = over(alloc, true, Some(differ))?;
    Ok(gives(alloc, query, member(alloc, 2, 0)?)?)
}

/// One for each of three classes: A, B and C.
pub fn three(alloc: Global) -> Result<Vec<Mapping>, Fail>
    ensures { IfOk result (λ v. AreFit v.items) }
{
    let mut mappings = Vec::new(alloc);
    mappings.push(own(alloc)?)?;
    mappings.push(all(alloc)?)?;
    mappings.push(other(alloc)?)?;
    Ok(mappings)
}

/// Each a is in the class.
pub fn members(alloc: Global, class: u32) -> Result<Vec<Mapping>, Fail>
    ensures { IfOk result (λ v. AreFit v.items) }
{
    let mut mappings = Vec::new(alloc);
    mappings.push(at_each_row(alloc, member(alloc, class, 0)?)?)?;
    Ok(mappings)
}

/// Each a is in B, and p leads from each b to its a.
pub fn linked(alloc: Global) -> Result<Vec<Mapping>, Fail>
    ensures { IfOk result (λ v. AreFit v.items) }
{
    let mut mappings = Vec::new(alloc);
    mappings.push(at_each_row(alloc, member(alloc, 1, 0)?)?)?;
    mappings.push(at_each_row(alloc, link(alloc)?)?)?;
    Ok(mappings)
}

/// Each a is in both classes.
pub fn members_of_two(alloc: Global, first: u32, second: u32) -> Result<Vec<Mapping>, Fail>
    ensures { IfOk result (λ v. AreFit v.items) }
{
    let mut mappings = Vec::new(alloc);
    mappings.push(at_each_row(alloc, member(alloc, first, 0)?)?)?;
    mappings.push(at_each_row(alloc, member(alloc, second, 0)?)?)?;
    Ok(mappings)
}

/// p leads from each b to its a.
pub fn joined(alloc: Global) -> Result<Vec<Mapping>, Fail>
    ensures { IfOk result (λ v. AreFit v.items) }
{
    let mut mappings = Vec::new(alloc);
    mappings.push(at_each_row(alloc, link(alloc)?)?)?;
    Ok(mappings)
}
