//! Which constraints small tables contradict.
ghost use Rattle.mapping_facts.specs.Fits.{AreFit};

use crate::mapped::four;
use crate::small::table;
use crate::within::{
    are_checkable, are_constraints_within, are_few, are_targets_within, are_within,
};
use crate::written::tbox;
use conflict_checker::{Derivation, accepts};
use consistency_check::conflicts;
use dllite_axioms::Tbox;
use mapping_facts::Mapping;
use source_tables::Table;
use std::alloc::{AllocError, Global};
use std::test::Fail;

// Axioms, constraints, rows, and the numbers of the contradicted constraints. Of each row the first is an
// A0, the second an A1, and both links lead from the first to the second. A null is no second filler. In
// the last the clash is on the fresh filler of each A0.
const CASES: &str = ";A0 # A1, one p0, p1 ## p0-;1,2 2,3 => 1;
;A0 # A1, one p0, p1 ## p0-;1,2 1,3 => 2;
;A0 # A1, one p0, p1 ## p0-;1,2 2,1 => 1;3;
;A0 # A1, one p0, p1 ## p0-;1,2 1,2 1, => none
A0 < p2, p2- < A2, A2 < A3;A2 # A3;1,2 => 1;";

fn numbers(alloc: Global, list: &[Derivation]) -> Result<String, AllocError> {
    let mut text = String::new(alloc);
    for derivation in list {
        text.push_str(format!(in alloc; "{};", derivation.constraint)?.as_str())?;
    }
    Ok(text)
}

fn are_numbers(alloc: Global, list: &[Derivation], want: &str) -> Result<bool, AllocError> {
    if list.is_empty() {
        return Ok(want == "none");
    }
    Ok(numbers(alloc, list)?.as_str() == want)
}

fn are_accepted(
    alloc: Global,
    list: &[Derivation],
    tbox: &Tbox,
    mappings: &[Mapping],
    tables: &[Table],
) -> Result<bool, AllocError>
    requires { AreFit mappings.now }
{
    for derivation in list {
        if !accepts(alloc, derivation, tbox, mappings, tables)? {
            return Ok(false);
        }
    }
    Ok(true)
}

fn are_contradicted(
    alloc: Global,
    tbox: &Tbox,
    mappings: &[Mapping],
    tables: &[Table],
    want: &str,
) -> Result<bool, AllocError>
    requires { AreFit mappings.now }
{
    let (axioms, constraints) = (tbox.axioms(), tbox.constraints());
    if axioms.len() > 99
        || constraints.len() > 99
        || !are_within(axioms)
        || !are_constraints_within(constraints)
        || !are_checkable(axioms, constraints)
        || !are_targets_within(mappings)
        || !are_few(mappings)
    {
        return Ok(false);
    }
    let list = conflicts(alloc, tbox, 10, 10, mappings, tables)?;
    Ok(
        are_numbers(alloc, list.items(), want)?
            && are_accepted(alloc, list.items(), tbox, mappings, tables)?,
    )
}

// The parts of a case: axioms, constraints, rows and numbers.
fn parts(case: &str) -> Option<(&str, &str, &str, &str)> {
    let (front, want) = case.split_once(" => ")?;
    let (axioms, front) = front.split_once(';')?;
    let (constraints, rows) = front.split_once(';')?;
    Some((axioms, constraints, rows, want))
}

fn holds(alloc: Global, mappings: &[Mapping], case: &str) -> Result<bool, Fail>
    requires { AreFit mappings.now }
{
    match parts(case) {
        Some((axioms, constraints, rows, want)) => {
            let tables = table(alloc, rows)?;
            let tbox = tbox(alloc, axioms, constraints)?;
            Ok(are_contradicted(alloc, &tbox, mappings, tables.as_slice(), want)?)
        }
        None => Ok(false),
    }
}

#[test]
fn contradicted_constraints_are_found(rt: HostRuntime) -> Result<(), Fail> {
    let mappings = four(rt.alloc())?;
    for case in CASES.split('\n') {
        assert!(rt; holds(rt.alloc(), mappings.as_slice(), case)?, "{case}");
    }
    Ok(())
}
