//! Row queries with their origins, and what they are joined to.
ghost use Rattle.std.specs.Prelude.{All, IfOk};
ghost use Rattle.mapping_facts.specs.Fits.{AreFit, RowQueryFits};

use crate::mapped::{members, three};
use crate::small::{in_class, query, table};
use join_engine::join;
use mapping_facts::{Condition, Mapping};
use mapping_unfolding::{Origin, Unfolded, unfold};
use source_tables::Table;
use std::alloc::{AllocError, Global};
use std::test::Fail;
use vocabulary::List;

fn spell_origin(alloc: Global, origin: Origin) -> Result<String, AllocError> {
    format!(in alloc;
        ", mapping {} target {} place {}",
        origin.mapping, origin.target, origin.first
    )
}

// The number of its tables, and its origins.
fn spell_one(alloc: Global, unfolded: &Unfolded) -> Result<String, AllocError> {
    let mut text = format!(in alloc; "tables {}", unfolded.rows.query.tables.len())?;
    for origin in unfolded.origins.items() {
        text.push_str(spell_origin(alloc, *origin)?.as_str())?;
    }
    text.push(';')?;
    Ok(text)
}

fn spell(alloc: Global, list: &[Unfolded]) -> Result<String, AllocError> {
    let mut text = String::new(alloc);
    for unfolded in list {
        text.push_str(spell_one(alloc, unfolded)?.as_str())?;
    }
    Ok(text)
}

// The instances of a class.
fn unfolded(alloc: Global, mappings: &[Mapping], class: u32) -> Result<List<Unfolded>, AllocError>
    requires { AreFit mappings.now }
    ensures { IfOk result (All (λ u. RowQueryFits u.rows)) }
{
    let query = query(alloc, in_class(class), None)?;
    unfold(alloc, &query, mappings)
}

// What is in two classes.
fn both(
    alloc: Global,
    mappings: &[Mapping],
    class: u32,
    other: u32,
) -> Result<List<Unfolded>, AllocError>
    requires { AreFit mappings.now }
{
    let query = query(alloc, in_class(class), Some(in_class(other)))?;
    unfold(alloc, &query, mappings)
}

fn is_class(alloc: Global, mappings: &[Mapping], class: u32, want: &str) -> Result<bool, AllocError>
    requires { AreFit mappings.now }
{
    let list = unfolded(alloc, mappings, class)?;
    Ok(spell(alloc, list.items())?.as_str() == want)
}

fn are_both(alloc: Global, mappings: &[Mapping], want: &str) -> Result<bool, AllocError>
    requires { AreFit mappings.now }
{
    let list = both(alloc, mappings, 2, 1)?;
    Ok(spell(alloc, list.items())?.as_str() == want)
}

// Of a table of reviews by their numbers.
#[test]
fn reviews_come_from_their_mapping(rt: HostRuntime) -> Result<(), Fail> {
    let mappings = members(rt.alloc(), 0)?;
    let want = "tables 1, mapping 0 target 0 place 0;";
    assert!(rt; is_class(rt.alloc(), mappings.as_slice(), 0, want)?);
    Ok(())
}

#[test]
fn each_class_comes_from_its_mapping(rt: HostRuntime) -> Result<(), Fail> {
    let mappings = three(rt.alloc())?;
    for (class, want) in [
        (0, "tables 1, mapping 0 target 0 place 0;"),
        (1, "tables 1, mapping 1 target 0 place 0;"),
        (2, "tables 2, mapping 2 target 0 place 0;"),
        (3, ""),
    ] {
        assert!(rt;
            is_class(rt.alloc(), mappings.as_slice(), class, want)?,
            "{class}"
        );
    }
    let want = "tables 3, mapping 2 target 0 place 0, mapping 1 target 0 place 2;";
    assert!(rt; are_both(rt.alloc(), mappings.as_slice(), want)?);
    Ok(())
}

fn is_not_null(condition: &Condition, table: u32, col: u32) -> bool {
    match condition {
        Condition::NotNull(place) => place.table == table && place.col.0 == col,
        _ => false,
    }
}

fn rules_out_null(unfolded: &Unfolded, table: u32, col: u32) -> bool {
    for condition in unfolded.rows.query.conditions.items() {
        if is_not_null(condition, table, col) {
            return true;
        }
    }
    false
}

// The first row query of B rules out a null in the second column.
fn rules_out(alloc: Global, mappings: &[Mapping]) -> Result<bool, AllocError>
    requires { AreFit mappings.now }
{
    match unfolded(alloc, mappings, 1)?.items() {
        [unfolded] => Ok(rules_out_null(unfolded, 0, 1)),
        _ => Ok(false),
    }
}

#[test]
fn a_null_gives_no_object(rt: HostRuntime) -> Result<(), Fail> {
    let mappings = three(rt.alloc())?;
    assert!(rt; rules_out(rt.alloc(), mappings.as_slice())?);
    Ok(())
}

// The number of tuples of the one row query.
fn joined(alloc: Global, mappings: &[Mapping], tables: &[Table]) -> Result<usize, AllocError>
    requires { AreFit mappings.now }
{
    match unfolded(alloc, mappings, 0)?.items() {
        [unfolded] => Ok(join(alloc, &unfolded.rows, tables)?.len()),
        _ => Ok(0),
    }
}

// A class that one mapping gives: one row query, which has the one row.
#[test]
fn a_class_is_unfolded_and_joined(rt: HostRuntime) -> Result<(), Fail> {
    let mappings = members(rt.alloc(), 0)?;
    let tables = table(rt.alloc(), b"a,b\n1,x")?;
    assert!(rt; joined(rt.alloc(), mappings.as_slice(), tables.as_slice())? == 1);
    Ok(())
}
