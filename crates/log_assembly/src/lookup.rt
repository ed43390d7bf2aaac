//! What answers in their order say of a term.
//!
//! Objects come in the order of the answers, so a walk along each list of answers finds what is asked:
//! each look begins near the place of the one before.
ghost use Rattle.std.specs.Prelude.{◌≡◌, ◌<◌, ◌≤◌, ◌-◌, [], drop, get_or, length, true, false, IfOk, IfSome, option_copied};
ghost use Rattle.std.specs.List.Sorted.{IsPartitionPoint, IsStrictlySortedBy};
ghost use Rattle.std.specs.Ordering.{is_le, is_lt};
ghost use Rattle.queries.specs.Order.{tuple_cmp};
ghost use Rattle.log_assembly.specs.Answered.{InOrder};
ghost use Rattle.log_assembly.specs.Found.{IsBehind, IsFirst, case_in, cases_at, first_cmp, lone_name, names_of, run_of, second, stands_alone, values_at};

use crate::lent::{LentIri, LentTerm};
use crate::places::Places;
use certain_answers::Answers;
use queries::compare_terms;
use std::alloc::{AllocError, Global};
use std::cmp::Ordering;
use vocabulary::{List, Term};

fn compare_first(tuple: &List<Term>, term: &Term) -> Ordering
    ensures { result ≡ first_cmp term.now tuple.now }
{
    match tuple.items().first() {
        Some(first) => compare_terms(first, term),
        None => Ordering::Less,
    }
}

// Whether the tuple at a place comes before the term.
fn precedes(tuples: &[List<Term>], at: usize, term: &Term) -> bool
    requires { at < length tuples.now }
    ensures { result ≡ is_lt (first_cmp term.now (get_or tuples.now at [])) }
{
    compare_first(&tuples[at], term).is_lt()
}

// Whether the place is there, and the tuple before it comes before the term.
fn is_behind(tuples: &[List<Term>], at: usize, term: &Term) -> bool
    ensures { result ≡ true → IsBehind term.now tuples.now at }
{
    if at > tuples.len() {
        return false;
    }
    if at == 0 {
        return true;
    }
    precedes(tuples, at - 1, term)
}

// How many tuples a walk passes before it gives way to a search.
const STEPS: usize = 8;

// The first place of the term, where it is `near` or a few tuples behind.
fn first_near(tuples: &[List<Term>], term: &Term, near: usize) -> Option<usize>
    ensures { IfSome result (IsFirst term.now tuples.now) }
{
    if !is_behind(tuples, near, term) {
        return None;
    }
    let mut at = near;
    while at < tuples.len() {
        if !precedes(tuples, at, term) {
            return Some(at);
        }
        if at - near == STEPS {
            return None;
        }
        at += 1;
    }
    Some(at)
}

fn first_at(tuples: &[List<Term>], term: &Term, near: usize) -> usize
    requires { IsStrictlySortedBy tuple_cmp tuples.now }
    ensures within { result ≤ length tuples.now }
    ensures first { IsPartitionPoint (λ y. is_lt (first_cmp term.now y) ≡ true) (λ y. is_lt (first_cmp term.now y) ≡ false) tuples.now result }
{
    match first_near(tuples, term, near) {
        Some(at) => at,
        None => tuples.partition_point(|tuple| compare_first(tuple, term).is_lt()),
    }
}

// Runs are short, so the end is walked to.
fn end_of(tuples: &[List<Term>], term: &Term, from: usize) -> usize
    requires sorted { IsStrictlySortedBy tuple_cmp tuples.now }
    requires within { from ≤ length tuples.now }
    ensures behind { from ≤ result }
    ensures within { result ≤ length tuples.now }
    ensures end { IsPartitionPoint (λ y. is_le (first_cmp term.now y) ≡ true) (λ y. is_le (first_cmp term.now y) ≡ false) (drop from tuples.now) (result - from) }
{
    let mut end = from;
    while end < tuples.len() && compare_first(&tuples[end], term).is_le() {
        end += 1;
    }
    end
}

// The tuples that begin with the term, which stand together. They are looked for near a place, and
// theirs is kept there.
fn run<'a>(answers: &'a Answers, term: &Term, near: &mut usize) -> &'a [List<Term>]
    requires { InOrder answers.now }
    ensures { result.now ≡ run_of term.now answers.now.tuples }
{
    let tuples = answers.tuples();
    let from = first_at(tuples, term, *near);
    let end = end_of(tuples, term, from);
    *near = from;
    &tuples[from..end]
}

fn second(tuple: &List<Term>) -> Option<&Term>
    ensures { option_copied result ≡ second tuple.now }
{
    match tuple.items() {
        [_, value] => Some(value),
        _ => None,
    }
}

fn lone_name(tuple: &List<Term>) -> Option<LentIri<'_>>
    ensures { result ≡ lone_name tuple.now }
{
    match tuple.items() {
        [term] => LentIri::of(term),
        _ => None,
    }
}

/// The IRIs of the answers that are one name each, in their order.
pub(crate) fn names<'a>(alloc: Global, answers: &'a Answers) -> Result<Vec<LentIri<'a>>, AllocError>
    ensures { IfOk result (λ v. v.items ≡ names_of answers.now.tuples) }
{
    let tuples = answers.tuples();
    let mut found = Vec::with_capacity(alloc, tuples.len())?;
    for tuple in tuples {
        if let Some(name) = lone_name(tuple) {
            found.push(name)?;
        }
    }
    Ok(found)
}

/// The second terms of the pairs that begin with the term.
pub(crate) fn values_at<'a>(
    alloc: Global,
    answers: &'a Answers,
    term: &Term,
    near: &mut usize,
) -> Result<Vec<LentTerm<'a>>, AllocError>
    requires { InOrder answers.now }
    ensures { IfOk result (λ v. v.items ≡ values_at term.now answers.now.tuples) }
{
    let pairs = run(answers, term, near);
    let mut values = Vec::with_capacity(alloc, pairs.len())?;
    for tuple in pairs {
        if let Some(value) = second(tuple) {
            values.push(LentTerm::of(value))?;
        }
    }
    Ok(values)
}

fn stands_alone(answers: &Answers, term: &Term, near: &mut usize) -> bool
    requires { InOrder answers.now }
    ensures { result ≡ stands_alone answers.now.tuples term.now }
{
    run(answers, term, near)
        .iter()
        .any(|tuple| tuple.len() == 1)
}

/// The IRIs of the cases that the pairs give the object.
pub(crate) fn cases_at<'a>(
    alloc: Global,
    cases: &Answers,
    pairs: &'a Answers,
    object: &Term,
    places: &mut Places,
) -> Result<Vec<LentIri<'a>>, AllocError>
    requires cases { InOrder cases.now }
    requires pairs { InOrder pairs.now }
    ensures { IfOk result (λ v. v.items ≡ cases_at cases.now.tuples object.now pairs.now.tuples) }
{
    let values = values_at(alloc, pairs, object, &mut places.pairs)?;
    let mut found = Vec::with_capacity(alloc, values.len())?;
    for value in &values {
        if let Some(case) = case_in(cases, value, &mut places.cases) {
            found.push(case)?;
        }
    }
    Ok(found)
}

fn case_in<'a>(cases: &Answers, value: &LentTerm<'a>, near: &mut usize) -> Option<LentIri<'a>>
    requires { InOrder cases.now }
    ensures { result ≡ case_in cases.now.tuples value.now }
{
    match value.iri() {
        Some(case) => {
            if stands_alone(cases, case.term(), near) {
                Some(case)
            } else {
                None
            }
        }
        None => None,
    }
}
