//! Queries: their normal forms, their faults, and steps of unifying and replacing.
use crate::written::query;
use queries::{Arg, Atom, Query};
use std::alloc::{AllocError, Global};
use std::test::Fail;
use vocabulary::{ClassId, List, Side, ValueKind, VarId};

// Two atoms of which each has a variable that stands once are one atom.
const DOUBLED: &str = "0 : p0 0 1, p0 0 2";

const DOUBLED_ONCE: &str = "0 : p0 0 _";

// Queries over a link 0 of times, and their first faults.
const JUDGED: &str = "2 : A0 0, p0 1 0 => Err(MixedSort)
2 : A0 0, p0 0 1 => Err(HeadUnbound)
1 : A0 0, p0 0 1 => Ok(())";

// The first atom is unified with the second. In the head too, the higher variable is replaced by the lower.
const UNIFIED: &str = "0 : p0 _ 1, p0 0 1 => 0 : p0 0 _
0 : p0 0 'http://e/p, p0 0 'http://e/q => none";

const UNIFIED_BACKWARDS: &str = "7 : p0 7 _, p0 0 'http://e/p => 0 : p0 0 'http://e/p";

fn is_query(alloc: Global, found: &Query, text: &str) -> Result<bool, AllocError> {
    Ok(found.compare(&query(alloc, text)?).is_eq())
}

// Whether a query of one place in the head has this normal form, and stands behind it.
fn is_normal(alloc: Global, asked: &Query, want: &str) -> Result<bool, AllocError> {
    if asked.head.len() > 9 || asked.atoms.len() > 9 {
        return Ok(false);
    }
    let normal = asked.normal(alloc)?;
    Ok(normal.compare(asked).is_lt() && is_query(alloc, &normal, want)?)
}

#[test]
fn repeated_atoms_are_one(rt: HostRuntime) -> Result<(), Fail> {
    let asked = query(rt.alloc(), DOUBLED)?;
    assert!(rt; is_normal(rt.alloc(), &asked, DOUBLED_ONCE)?);
    Ok(())
}

fn is_substituted(alloc: Global, asked: &Query) -> Result<bool, AllocError> {
    let replaced = asked.substitute(alloc, VarId(7), &Arg::Var(VarId(3)))?;
    is_query(alloc, &replaced, "3 : A0 3")
}

fn is_copied(alloc: Global, asked: &Query) -> Result<bool, AllocError> {
    Ok(asked.copy(alloc)?.compare(asked).is_eq())
}

#[test]
fn variables_are_replaced_in_head_and_atoms(rt: HostRuntime) -> Result<(), Fail> {
    let asked = query(rt.alloc(), "7 : A0 7")?;
    assert!(rt; is_substituted(rt.alloc(), &asked)?);
    assert!(rt; is_copied(rt.alloc(), &asked)?);
    Ok(())
}

fn is_judged(alloc: Global, case: &str) -> Result<bool, AllocError> {
    let sides = [Side::Value(ValueKind::Time)];
    match case.split_once(" => ") {
        Some((text, want)) => {
            let answer = query(alloc, text)?.check(&sides);
            Ok(format!(in alloc; "{answer:?}")?.as_str() == want)
        }
        None => Ok(false),
    }
}

#[test]
fn faults_come_in_their_order(rt: HostRuntime) -> Result<(), Fail> {
    for case in JUDGED.split('\n') {
        assert!(rt; is_judged(rt.alloc(), case)?, "{case}");
    }
    Ok(())
}

// So many atoms of a class, at one variable or at as many.
fn members(alloc: Global, many: u32, different: bool) -> Result<List<Atom>, AllocError> {
    let mut atoms = List::new(alloc);
    for v in 0..many {
        let v = if different { v } else { 0 };
        atoms.push(Atom::InClass(ClassId(0), Arg::Var(VarId(v))))?;
    }
    Ok(atoms)
}

fn wide(alloc: Global, v: u32, many: u32, different: bool) -> Result<Query, AllocError> {
    let mut head = List::new(alloc);
    head.push(Arg::Var(VarId(v)))?;
    Ok(Query {
        head,
        atoms: members(alloc, many, different)?,
    })
}

fn passes(alloc: Global, v: u32, many: u32, different: bool) -> Result<bool, AllocError> {
    Ok(wide(alloc, v, many, different)?.check(&[]).is_ok())
}

fn is_too_large(alloc: Global, v: u32, many: u32, different: bool) -> Result<bool, AllocError> {
    let answer = wide(alloc, v, many, different)?.check(&[]);
    Ok(format!(in alloc; "{answer:?}")?.as_str() == "Err(TooLarge)")
}

// Sixteen atoms of one variable pass, seventeen do not; nor do seventeen variables.
#[test]
fn sixteen_of_each_are_not_too_large(rt: HostRuntime) -> Result<(), Fail> {
    assert!(rt; passes(rt.alloc(), 0, 16, false)?);
    assert!(rt; is_too_large(rt.alloc(), 2, 17, false)?);
    assert!(rt; passes(rt.alloc(), 0, 16, true)?);
    assert!(rt; is_too_large(rt.alloc(), 16, 16, true)?);
    Ok(())
}

// The first atom of two with the second, or the second with the first.
fn unified(alloc: Global, asked: &Query, is_backwards: bool) -> Result<Option<Query>, AllocError> {
    if asked.head.len() != 1 || asked.atoms.len() != 2 {
        return Ok(None);
    }
    if is_backwards {
        asked.unify_atoms(alloc, 1, 0)
    } else {
        asked.unify_atoms(alloc, 0, 1)
    }
}

fn is_wanted(alloc: Global, found: &Option<Query>, want: &str) -> Result<bool, AllocError> {
    match found {
        Some(found) => is_query(alloc, found, want),
        None => Ok(want == "none"),
    }
}

fn is_unified(alloc: Global, case: &str, is_backwards: bool) -> Result<bool, AllocError> {
    match case.split_once(" => ") {
        Some((text, want)) => {
            let found = unified(alloc, &query(alloc, text)?, is_backwards)?;
            is_wanted(alloc, &found, want)
        }
        None => Ok(false),
    }
}

#[test]
fn atoms_are_unified(rt: HostRuntime) -> Result<(), Fail> {
    for case in UNIFIED.split('\n') {
        assert!(rt; is_unified(rt.alloc(), case, false)?, "{case}");
    }
    assert!(rt; is_unified(rt.alloc(), UNIFIED_BACKWARDS, true)?);
    Ok(())
}
