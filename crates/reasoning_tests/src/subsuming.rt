//! Mappings and kept queries on small examples.
use crate::written::{are_queries, queries};
use queries::Query;
use query_subsumption::{drop_subsumed, maps_into};
use std::alloc::{AllocError, Global};
use std::test::Fail;

// A query, one that it may map into, and the images of its variables. A blank goes to a variable, one
// variable is not two blanks, a constant goes to itself alone, and numbers of no variable are blank.
const MAPPED: &str = "0 : p0 0 _; 0 : A0 1, p0 0 1 => [Var(VarId(0)), Var(VarId(1))]
0 : A0 1, p0 0 1; 0 : p0 0 _ => none
0 : A0 1, p0 0 1; 0 : A0 _, p0 0 _ => none
0 : A0 _, p0 0 _; 0 : A0 1, p0 0 1 => [Var(VarId(0)), Var(VarId(1)), Var(VarId(1))]
0 : p0 0 1; 0 : p0 0 'p => some
0 : p0 0 'p; 0 : p0 0 'p => some
0 : p0 0 'p; 0 : p0 0 1 => none
0 : p0 0 'p; 0 : p0 0 'q => none
2 : A0 2, A1 _; 2 : A0 2, A1 _ => [Blank, Blank, Var(VarId(2)), Blank]";

// Queries, and those that are kept: the wider one, of two that map into each other the earlier, and of
// all that the question for what is about some paper is rewritten to two.
const KEPT: &str = "0 : A0 0; 0 : A0 0, A1 0 => 0 : A0 0
0 : A0 0; 0 : A0 0, A0 _ => 0 : A0 0
0 : A0 0; 0 : p0 0 _; 0 : A1 1, p0 0 1; 0 : p0 _ 1, p0 0 1 => 0 : A0 0; 0 : p0 0 _";

// The images are printed as this, or it is asked whether there are some.
fn are_images(
    alloc: Global,
    general: &Query,
    special: &Query,
    want: &str,
) -> Result<bool, AllocError> {
    match maps_into(alloc, general, special)? {
        Some(images) => {
            Ok(want == "some" || format!(in alloc; "{:?}", images.items())?.as_str() == want)
        }
        None => Ok(want == "none"),
    }
}

fn is_mapped(alloc: Global, case: &str) -> Result<bool, AllocError> {
    match case.split_once(" => ") {
        Some((both, want)) => match queries(alloc, both)?.items() {
            [general, special] => are_images(alloc, general, special, want),
            _ => Ok(false),
        },
        None => Ok(false),
    }
}

#[test]
fn queries_map_into_others(rt: HostRuntime) -> Result<(), Fail> {
    for case in MAPPED.split('\n') {
        assert!(rt; is_mapped(rt.alloc(), case)?, "{case}");
    }
    Ok(())
}

fn are_kept(alloc: Global, case: &str) -> Result<bool, AllocError> {
    match case.split_once(" => ") {
        Some((all, want)) => {
            let kept = drop_subsumed(alloc, queries(alloc, all)?)?;
            are_queries(alloc, kept.items(), want)
        }
        None => Ok(false),
    }
}

#[test]
fn the_wider_queries_are_kept(rt: HostRuntime) -> Result<(), Fail> {
    for case in KEPT.split('\n') {
        assert!(rt; are_kept(rt.alloc(), case)?, "{case}");
    }
    Ok(())
}
