//! Explanations of answers over one small table.
ghost use Rattle.std.specs.Prelude.{IfOk};
ghost use Rattle.mapping_facts.specs.Fits.{AreFit};
ghost use Rattle.queries.specs.Occurrences.{HeadStands, KnownAtom};

use crate::mapped;
use crate::small::{linked, query, table};
use conflict_checker::{Step, facts};
use dllite_axioms::{Axiom, Basic, Tbox};
use mapping_facts::Mapping;
use queries::{Arg, Atom, Query};
use source_tables::Table;
use std::alloc::{AllocError, Global};
use std::test::Fail;
use vocabulary::{ClassId, Dir, LinkId, List, Term, VarId};
use why_answers::{Why, explains};

// Numbers of steps for the atoms, and what they explain.
const CASES: &str = "2 3 => http://e/1;
3 2 => none
2 2 => none
2 4 => none
0 3 => none
2 => none
2 3 3 => none";

// What p leads from is an A, what it leads to is a B, and it leads from each A.
fn model(alloc: Global) -> Result<Tbox, AllocError> {
    let from = Basic::Has(LinkId(0), Dir::Fwd);
    let to = Basic::Has(LinkId(0), Dir::Back);
    let mut axioms = List::new(alloc);
    axioms.push(Axiom::Sub(from, Basic::Class(ClassId(0))))?;
    axioms.push(Axiom::Sub(to, Basic::Class(ClassId(1))))?;
    axioms.push(Axiom::Sub(Basic::Class(ClassId(0)), from))?;
    Ok(Tbox::new(axioms, List::new(alloc)))
}

// That the other variable is a B.
fn second_in() -> Atom
    ensures { KnownAtom result }
{
    Atom::InClass(ClassId(1), Arg::Var(VarId(1)))
}

// What p leads from to a B.
fn of_both(alloc: Global) -> Result<Query, AllocError>
    ensures { IfOk result HeadStands }
{
    query(alloc, linked(0), Some(second_in()))
}

// The first row, its filler, and that this is a B.
fn steps(alloc: Global) -> Result<List<Step>, AllocError> {
    let mut rows = List::new(alloc);
    rows.push(1)?;
    let mut steps = List::new(alloc);
    steps.push(Step::Mapped {
        mapping: 1,
        target: 1,
        rows,
    })?;
    steps.push(Step::Rule { axiom: 3, step: 1 })?;
    steps.push(Step::Rule { axiom: 2, step: 2 })?;
    Ok(steps)
}

fn numbers(alloc: Global, text: &str) -> Result<List<u32>, AllocError> {
    let mut numbers = List::new(alloc);
    for word in text.split(' ') {
        if let Ok(number) = word.parse::<u32>() {
            numbers.push(number)?;
        }
    }
    Ok(numbers)
}

// The IRIs of the tuple, each with a semicolon behind it, or none.
fn spell(alloc: Global, tuple: &Option<List<Term>>) -> Result<String, AllocError> {
    let mut text = String::new(alloc);
    match tuple {
        Some(tuple) => {
            for term in tuple.items() {
                text.push_str(term.text().text())?;
                text.push(';')?;
            }
            Ok(text)
        }
        None => {
            text.push_str("none")?;
            Ok(text)
        }
    }
}

fn is_explained(
    alloc: Global,
    query: &Query,
    mappings: &[Mapping],
    tables: &[Table],
    atoms: &str,
    want: &str,
) -> Result<bool, AllocError>
    requires stands { HeadStands query.now }
    requires fit { AreFit mappings.now }
{
    let why = Why {
        steps: steps(alloc)?,
        atoms: numbers(alloc, atoms)?,
    };
    let tuple = explains(alloc, &why, query, &model(alloc)?, mappings, tables)?;
    Ok(spell(alloc, &tuple)?.as_str() == want)
}

#[test]
fn the_atoms_name_steps_in_their_order(rt: HostRuntime) -> Result<(), Fail> {
    let alloc = rt.alloc();
    let owned = mapped::members(alloc, 0)?;
    let table = table(alloc, b"a,b\n1,2")?;
    let query = of_both(alloc)?;
    for case in CASES.split('\n') {
        let Some((atoms, want)) = case.split_once(" => ") else {
            return Err(Fail::new("a case without an arrow"));
        };
        let mappings = owned.as_slice();
        assert!(rt; is_explained(alloc, &query, mappings, table.as_slice(), atoms, want)?);
    }
    Ok(())
}

// The first step can not be a rule.
#[test]
fn a_rule_at_no_earlier_step_has_no_fact(rt: HostRuntime) -> Result<(), Fail> {
    let alloc = rt.alloc();
    let owned = mapped::members(alloc, 0)?;
    let table = table(alloc, b"a,b\n1,2")?;
    let mut steps = List::new(alloc);
    steps.push(Step::Rule { axiom: 1, step: 1 })?;
    let model = model(alloc)?;
    let found = facts(
        alloc,
        steps.items(),
        &model,
        owned.as_slice(),
        table.as_slice(),
    )?;
    assert!(rt; found.is_none());
    Ok(())
}
