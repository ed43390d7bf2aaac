//! The facts over two small tables, by the definitions.
ghost use Rattle.std.specs.Prelude.{◌≡◌, All, IfOk, length};
ghost use Rattle.mapping_facts.specs.Fits.{ConditionFits, MappingFits, QueryFits, TargetFits, TermFits};

use crate::small::table;
use iri_templates::Template;
use mapping_facts::{Condition, Mapping, Place, RowTerm, SourceQuery, Target, fact_of};
use source_tables::Table;
use std::alloc::{AllocError, Global};
use std::test::Fail;
use vocabulary::{ClassId, ColId, Fact, LinkId, List, Name, TableId, ValueKind};

const A_ID: Place = Place {
    table: 0,
    col: ColId(0),
};

const A_TITLE: Place = Place {
    table: 0,
    col: ColId(1),
};

const B_ID: Place = Place {
    table: 1,
    col: ColId(0),
};

const B_TITLE: Place = Place {
    table: 1,
    col: ColId(1),
};

fn tables_of(alloc: Global, first: &[u8], second: &[u8]) -> Result<Vec<Table>, Fail> {
    let mut tables = Vec::new(alloc);
    tables.push(table(alloc, first)?)?;
    tables.push(table(alloc, second)?)?;
    Ok(tables)
}

// Two tables, whose second rows have no title.
fn two_tables(alloc: Global) -> Result<Vec<Table>, Fail> {
    tables_of(alloc, b"id,title\n1,x\n2,\n", b"id,title\n7,x\n8,\n")
}

// The object of the id of a.
fn object(alloc: Global) -> Result<RowTerm, Fail>
    ensures { IfOk result (TermFits 2) }
{
    let template = Template::parse(alloc, "http://a/{id}")?;
    if template.holes() != 1 {
        return Err(Fail::new("not one hole"));
    }
    let mut places = List::new(alloc);
    places.push(A_ID)?;
    Ok(RowTerm::Iri(template, places))
}

// `{a.id}` is in a class.
fn member(alloc: Global) -> Result<Target, Fail>
    ensures { IfOk result (TargetFits 2) }
{
    Ok(Target::InClass(ClassId(0), object(alloc)?))
}

// The title of b is linked to the id of a.
fn link() -> Target
    ensures { TargetFits 2 result }
{
    let title = RowTerm::Cell(ValueKind::Text, B_TITLE);
    Target::Linked(LinkId(0), title, RowTerm::Cell(ValueKind::Int, A_ID))
}

fn targets(alloc: Global) -> Result<List<Target>, Fail>
    ensures fits { IfOk result (All (TargetFits 2)) }
    ensures two { IfOk result (λ list. length list ≡ 2) }
{
    let mut targets = List::new(alloc);
    targets.push(member(alloc)?)?;
    targets.push(link())?;
    Ok(targets)
}

// Both tables under the condition.
fn source(alloc: Global, condition: Condition) -> Result<SourceQuery, AllocError>
    requires { ConditionFits 2 condition }
    ensures two { IfOk result (λ q. length q.tables ≡ 2) }
    ensures fits { IfOk result QueryFits }
{
    let mut tables = List::new(alloc);
    tables.push(TableId(0))?;
    tables.push(TableId(1))?;
    let mut conditions = List::new(alloc);
    conditions.push(condition)?;
    Ok(SourceQuery { tables, conditions })
}

fn mapping(alloc: Global, condition: Condition) -> Result<Mapping, Fail>
    requires { ConditionFits 2 condition }
    ensures { IfOk result MappingFits }
{
    let query = source(alloc, condition)?;
    let targets = targets(alloc)?;
    let name = Name::new(alloc, "m")?;
    Ok(Mapping {
        name,
        query,
        targets,
    })
}

// Whether the first target gives a fact under the condition.
fn gives(alloc: Global, tables: &[Table], condition: Condition, rows: &[u32]) -> Result<bool, Fail>
    requires { ConditionFits 2 condition }
{
    let mapping = mapping(alloc, condition)?;
    Ok(fact_of(alloc, &mapping, tables, rows, 0)?.is_some())
}

fn equal_cells_are_texts(alloc: Global, tables: &[Table]) -> Result<bool, Fail> {
    Ok(
        gives(alloc, tables, Condition::Equal(A_TITLE, B_TITLE), &[0, 0])?
            && !gives(alloc, tables, Condition::Equal(A_TITLE, B_TITLE), &[1, 1])?,
    )
}

fn different_cells_are_texts(alloc: Global, tables: &[Table]) -> Result<bool, Fail> {
    Ok(
        !gives(alloc, tables, Condition::Differ(A_TITLE, B_TITLE), &[1, 0])?
            && gives(alloc, tables, Condition::Differ(A_ID, B_ID), &[0, 0])?,
    )
}

#[test]
fn a_comparison_with_a_null_is_false(rt: HostRuntime) -> Result<(), Fail> {
    let tables = two_tables(rt.alloc())?;
    assert!(rt; equal_cells_are_texts(rt.alloc(), tables.as_slice())?);
    assert!(rt; different_cells_are_texts(rt.alloc(), tables.as_slice())?);
    Ok(())
}

// The texts of the fact's terms, or a dash.
fn shown(alloc: Global, fact: &Option<Fact>) -> Result<String, AllocError> {
    match fact {
        None => String::from_str(alloc, "-"),
        Some(Fact::InClass(_, term)) => String::from_str(alloc, term.text().text()),
        Some(Fact::Linked(_, first, second)) => {
            format!(in alloc; "{} {}", first.text().text(), second.text().text())
        }
    }
}

fn is_fact(
    alloc: Global,
    mapping: &Mapping,
    tables: &[Table],
    rows: &[u32],
    target: u32,
    want: &str,
) -> Result<bool, AllocError>
    requires { MappingFits mapping.now }
{
    let fact = fact_of(alloc, mapping, tables, rows, target)?;
    Ok(shown(alloc, &fact)?.as_str() == want)
}

// Rows, the number of a target, and what it gives over the rows.
fn are_facts(
    alloc: Global,
    mapping: &Mapping,
    tables: &[Table],
    cases: &[([u32; 2], u32, &str)],
) -> Result<bool, AllocError>
    requires { MappingFits mapping.now }
{
    for (rows, target, want) in cases {
        if !is_fact(alloc, mapping, tables, rows.as_slice(), *target, want)? {
            return Ok(false);
        }
    }
    Ok(true)
}

const GIVEN: [([u32; 2], u32, &str); 5] = [
    ([0, 0], 0, "http://a/1"),
    ([0, 0], 1, "x 1"),
    ([0, 1], 1, "-"),
    ([1, 0], 0, "-"),
    ([0, 0], 2, "-"),
];

#[test]
fn tuples_give_facts(rt: HostRuntime) -> Result<(), Fail> {
    let tables = two_tables(rt.alloc())?;
    let mapping = mapping(rt.alloc(), Condition::NotNull(A_TITLE))?;
    assert!(rt; are_facts(rt.alloc(), &mapping, tables.as_slice(), &GIVEN)?);
    Ok(())
}

fn copied(alloc: Global) -> Result<Mapping, Fail>
    ensures { IfOk result MappingFits }
{
    let mapping = mapping(alloc, Condition::Differ(A_TITLE, B_ID))?;
    Ok(mapping.copy(alloc)?)
}

// The first row has no title. Where the title of a differs from the id of b, `{a.id}` is in the class:
// a null differs from nothing.
const COPIED: [([u32; 2], u32, &str); 4] = [
    ([0, 0], 0, "-"),
    ([0, 1], 0, "-"),
    ([1, 0], 0, "http://a/2"),
    ([1, 1], 0, "-"),
];

#[test]
fn a_copy_gives_the_same_facts(rt: HostRuntime) -> Result<(), Fail> {
    let bytes = b"id,title\n1,\n2,2\n";
    let tables = tables_of(rt.alloc(), bytes, bytes)?;
    let copy = copied(rt.alloc())?;
    assert!(rt; are_facts(rt.alloc(), &copy, tables.as_slice(), &COPIED)?);
    Ok(())
}

fn query(alloc: Global) -> Result<SourceQuery, AllocError> {
    let mut tables = List::new(alloc);
    tables.push(TableId(3))?;
    let mut conditions = List::new(alloc);
    conditions.push(Condition::EqualText(A_TITLE, Name::new(alloc, "7")?))?;
    Ok(SourceQuery { tables, conditions })
}

#[test]
fn queries_are_copied(rt: HostRuntime) -> Result<(), Fail> {
    let copy = query(rt.alloc())?.copy(rt.alloc())?;
    assert!(rt; copy.tables.len() == 1 && copy.conditions.len() == 1);
    Ok(())
}
