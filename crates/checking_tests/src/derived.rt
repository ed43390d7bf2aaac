//! Which known facts are derived, and by which steps.
ghost use Rattle.std.specs.Prelude.{◌≡◌, ◌<◌, IfOk, IsTrue};
ghost use Rattle.vocabulary.specs.Terms.{IsKnown, IsKnownFact};
ghost use Rattle.mapping_facts.specs.Fits.{AreFit};
ghost use Rattle.fact_derivation.specs.Derivings.{IsFactWithin};

use crate::mapped::five;
use crate::small::table;
use crate::within::are_within;
use crate::written::{digit, tbox};
use conflict_checker::Step;
use fact_derivation::derive;
use mapping_facts::Mapping;
use negative_closure::Downs;
use source_tables::Table;
use std::alloc::{AllocError, Global};
use std::test::Fail;
use vocabulary::{ClassId, Fact, LinkId, List, Name, Term, ValueKind};

const AXIOMS: &str = "A0 < A2, A2 < A3, p2 << p3, p0- << p4, p1- < A4, A0 < p5";

const ROWS: &str = "7,8 1,u";

// A fact and the steps that derive it: `m3.1 [2]` is what the first target of the third mapping gives on
// the second row, and `r1.2` what the first axiom gives at the second step. Of each row the first is an A0,
// the links 0 and 1 lead from the first to the second, and the attribute 2 from the first to the second's
// text. The fillers of link 5 are fresh, and no row has 9.
const CASES: &str = "A0 1 => m3.1 [2]; 
A3 1 => m3.1 [2]; r1.1; r2.2; 
A4 8 => m2.1 [1]; r5.1; 
p2 1 =u => m5.1 [2]; 
p3 1 =u => m5.1 [2]; r3.1; 
p4 8 7 => m1.1 [1]; r4.1; 
p4 7 8 => none
p3 1 u => none
p5 1 8 => none
A3 8 => none
A0 9 => none";

// A value behind `=`, and else an object.
fn term(alloc: Global, word: &str) -> Result<Term, AllocError>
    ensures { IfOk result IsKnown }
{
    match word.strip_prefix("=") {
        Some(text) => Ok(Term::Value(ValueKind::Text, Name::new(alloc, text)?)),
        None => {
            let text = format!(in alloc; "http://e/{word}")?;
            Ok(Term::Named(Name::new(alloc, text.as_str())?))
        }
    }
}

fn member(alloc: Global, class: &str, word: &str) -> Result<Fact, AllocError>
    ensures { IfOk result IsKnownFact }
{
    Ok(Fact::InClass(ClassId(digit(class, 1)), term(alloc, word)?))
}

fn linked(alloc: Global, link: &str, near: &str, far: &str) -> Result<Fact, AllocError>
    ensures { IfOk result IsKnownFact }
{
    let near = term(alloc, near)?;
    let far = term(alloc, far)?;
    Ok(Fact::Linked(LinkId(digit(link, 1)), near, far))
}

// `A3 1` or `p2 1 =u`.
fn fact(alloc: Global, text: &str) -> Result<Fact, AllocError>
    ensures { IfOk result IsKnownFact }
{
    match text.split_once(' ') {
        Some((link, terms)) => match terms.split_once(' ') {
            Some((near, far)) => linked(alloc, link, near, far),
            None => member(alloc, link, terms),
        },
        None => member(alloc, text, ""),
    }
}

fn is_within(fact: &Fact, downs: &Downs) -> bool
    ensures { IsTrue result → IsFactWithin downs.now.classes downs.now.links fact.now }
{
    match fact {
        Fact::InClass(class, _) => class.0 < downs.classes(),
        Fact::Linked(link, _, _) => link.0 < downs.links(),
    }
}

fn spelled_step(alloc: Global, step: &Step) -> Result<String, AllocError> {
    match step {
        Step::Mapped {
            mapping,
            target,
            rows,
        } => format!(in alloc; "m{mapping}.{target} {:?}; ", rows.items()),
        Step::Rule { axiom, step } => format!(in alloc; "r{axiom}.{step}; "),
    }
}

fn spelled(alloc: Global, steps: &[Step]) -> Result<String, AllocError> {
    let mut text = String::new(alloc);
    for step in steps {
        text.push_str(spelled_step(alloc, step)?.as_str())?;
    }
    Ok(text)
}

fn are_steps(alloc: Global, steps: &Option<List<Step>>, want: &str) -> Result<bool, AllocError> {
    match steps {
        Some(steps) => Ok(spelled(alloc, steps.items())?.as_str() == want),
        None => Ok(want == "none"),
    }
}

fn is_derived(
    alloc: Global,
    case: &str,
    downs: &Downs,
    mappings: &[Mapping],
    tables: &[Table],
) -> Result<bool, AllocError>
    requires { AreFit mappings.now }
{
    let Some((text, want)) = case.split_once(" => ") else {
        return Ok(false);
    };
    let fact = fact(alloc, text)?;
    if !is_within(&fact, downs) {
        return Ok(false);
    }
    let steps = derive(alloc, &fact, downs, mappings, tables)?;
    are_steps(alloc, &steps, want)
}

fn model(alloc: Global) -> Result<Downs, Fail> {
    let tbox = tbox(alloc, AXIOMS, "")?;
    if tbox.axioms().len() > 99 || !are_within(tbox.axioms()) {
        return Err(Fail::new("no such model"));
    }
    Ok(Downs::of(alloc, &tbox, 10, 10)?)
}

#[test]
fn known_facts_are_derived(rt: HostRuntime) -> Result<(), Fail> {
    let downs = model(rt.alloc())?;
    let mappings = five(rt.alloc())?;
    let tables = table(rt.alloc(), ROWS)?;
    for case in CASES.split('\n') {
        assert!(rt;
            is_derived(
                rt.alloc(),
                case,
                &downs,
                mappings.as_slice(),
                tables.as_slice()
            )?,
            "{case}"
        );
    }
    Ok(())
}
