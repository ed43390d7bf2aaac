//! Which derivations are accepted, and the facts of their steps.
ghost use Rattle.mapping_facts.specs.Fits.{AreFit};

use crate::mapped::four;
use crate::small::table;
use crate::written::digit;
use conflict_checker::{Derivation, Step, accepts, facts};
use dllite_axioms::{Axiom, Basic, Constraint, Tbox};
use mapping_facts::Mapping;
use source_tables::Table;
use std::alloc::{AllocError, Global};
use std::test::Fail;
use vocabulary::{ClassId, Dir, Fact, LinkId, List};

// The constraint, the steps, those that clash, and whether this is accepted. `m1` is the fact of the first
// mapping on the first row, and `r1.2` what the first axiom gives at the second step. Two objects with one
// value are identified. No rows 0 and 3 are there, nor what no earlier step or no axiom gives.
const CASES: &str = "1: m1 r1.1 m2 r1.3; 2 4 1 3 => true
1: m1 r1.1 m2 r1.3; 2 2 1 1 => false
1: m1 r1.1 m2 r1.3; 2 4 3 1 => false
1: m1 r1.1 m2 r1.3; 2 4 => false
2: m1 r1.1; 2 1 => true
2: m1 r1.1; 1 2 => false
2: m1 r1.1; 2 3 => false
2: m1 r1.1 m0; 2 1 => false
2: m1 r1.1 m3; 2 1 => false
2: m1 r1.2; 2 1 => false
2: m1 r1.1 r1.9; 2 1 => false
2: m1 r1.1 r9.1; 2 1 => false
0: m1 r1.1; 2 1 => false
3: m1 r1.1; 2 1 => false";

// The steps and their facts, by the number of the class or the link and the terms.
const FACTS: &str = "m1 r1.1 => link 0 http://e/1 http://e/u; class 0 http://e/1; 
m2 => link 0 http://e/2 http://e/u; 
m1 r1.2 => none";

fn has() -> Basic {
    Basic::Has(LinkId(0), Dir::Fwd)
}

fn identified(alloc: Global) -> Result<Constraint, AllocError> {
    let mut links = List::new(alloc);
    links.push(LinkId(0))?;
    Ok(Constraint::Identified(ClassId(0), links))
}

// What the link leads from is an A, by its value no other A has it, and no A has one.
fn model(alloc: Global) -> Result<Tbox, AllocError> {
    let class = Basic::Class(ClassId(0));
    let mut axioms = List::new(alloc);
    axioms.push(Axiom::Sub(has(), class))?;
    let mut constraints = List::new(alloc);
    constraints.push(identified(alloc)?)?;
    constraints.push(Constraint::Disjoint(class, has()))?;
    Ok(Tbox::new(axioms, constraints))
}

fn step(alloc: Global, word: &str) -> Result<Step, AllocError> {
    if word.starts_with('r') {
        return Ok(Step::Rule {
            axiom: digit(word, 1),
            step: digit(word, 3),
        });
    }
    let mut rows = List::new(alloc);
    rows.push(digit(word, 1))?;
    Ok(Step::Mapped {
        mapping: 1,
        target: 1,
        rows,
    })
}

fn steps(alloc: Global, text: &str) -> Result<List<Step>, AllocError> {
    let mut steps = List::new(alloc);
    for word in text.split(' ') {
        steps.push(step(alloc, word)?)?;
    }
    Ok(steps)
}

fn ends(alloc: Global, text: &str) -> Result<List<u32>, AllocError> {
    let mut ends = List::new(alloc);
    for word in text.split(' ') {
        ends.push(digit(word, 0))?;
    }
    Ok(ends)
}

fn derivation(
    alloc: Global,
    number: &str,
    first: &str,
    second: &str,
) -> Result<Derivation, AllocError> {
    let steps = steps(alloc, first)?;
    Ok(Derivation {
        constraint: digit(number, 0),
        steps,
        ends: ends(alloc, second)?,
    })
}

// The parts of a case: the constraint, the steps, those that clash, and the answer.
fn parts(case: &str) -> Option<(&str, &str, &str, &str)> {
    let (front, want) = case.split_once(" => ")?;
    let (front, ends) = front.split_once("; ")?;
    let (number, steps) = front.split_once(": ")?;
    Some((number, steps, ends, want))
}

fn is_judged(
    alloc: Global,
    case: &str,
    tbox: &Tbox,
    mappings: &[Mapping],
    tables: &[Table],
) -> Result<bool, AllocError>
    requires { AreFit mappings.now }
{
    match parts(case) {
        Some((number, steps, ends, want)) => {
            let derivation = derivation(alloc, number, steps, ends)?;
            let accepted = accepts(alloc, &derivation, tbox, mappings, tables)?;
            Ok(accepted == (want == "true"))
        }
        None => Ok(false),
    }
}

#[test]
fn derivations_are_judged(rt: HostRuntime) -> Result<(), Fail> {
    let tbox = model(rt.alloc())?;
    let mappings = four(rt.alloc())?;
    let tables = table(rt.alloc(), "1,u 2,u")?;
    for case in CASES.split('\n') {
        assert!(rt;
            is_judged(
                rt.alloc(),
                case,
                &tbox,
                mappings.as_slice(),
                tables.as_slice()
            )?,
            "{case}"
        );
    }
    Ok(())
}

fn spelled_fact(alloc: Global, fact: &Fact) -> Result<String, AllocError> {
    match fact {
        Fact::InClass(class, term) => {
            format!(in alloc; "class {} {}; ", class.0, term.text().text())
        }
        Fact::Linked(link, first, second) => {
            let (first, second) = (first.text().text(), second.text().text());
            format!(in alloc; "link {} {first} {second}; ", link.0)
        }
    }
}

fn spelled(alloc: Global, facts: &[Fact]) -> Result<String, AllocError> {
    let mut text = String::new(alloc);
    for fact in facts {
        text.push_str(spelled_fact(alloc, fact)?.as_str())?;
    }
    Ok(text)
}

fn are_facts(alloc: Global, found: &Option<List<Fact>>, want: &str) -> Result<bool, AllocError> {
    match found {
        Some(found) => Ok(spelled(alloc, found.items())?.as_str() == want),
        None => Ok(want == "none"),
    }
}

fn have_facts(
    alloc: Global,
    case: &str,
    tbox: &Tbox,
    mappings: &[Mapping],
    tables: &[Table],
) -> Result<bool, AllocError>
    requires { AreFit mappings.now }
{
    match case.split_once(" => ") {
        Some((text, want)) => {
            let steps = steps(alloc, text)?;
            let found = facts(alloc, steps.items(), tbox, mappings, tables)?;
            are_facts(alloc, &found, want)
        }
        None => Ok(false),
    }
}

#[test]
fn steps_have_facts(rt: HostRuntime) -> Result<(), Fail> {
    let tbox = model(rt.alloc())?;
    let mappings = four(rt.alloc())?;
    let tables = table(rt.alloc(), "1,u 2,u")?;
    for case in FACTS.split('\n') {
        assert!(rt;
            have_facts(
                rt.alloc(),
                case,
                &tbox,
                mappings.as_slice(),
                tables.as_slice()
            )?,
            "{case}"
        );
    }
    Ok(())
}
