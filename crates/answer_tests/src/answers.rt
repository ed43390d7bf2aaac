//! Certain answers of small queries over one small table.
ghost use Rattle.std.specs.Prelude.{◌≡◌, ◌≤◌, length, IfSome};
ghost use Rattle.mapping_facts.specs.Fits.{AreFit};
ghost use Rattle.queries.specs.Occurrences.{HeadStands, KnownAtom, KnownConstants, atom_occurs};

use crate::mapped;
use crate::ready::ready;
use crate::small::{in_class, linked, query, table};
use certain_answers::{Answers, Specification, answers};
use dllite_axioms::{Axiom, Basic, Tbox};
use mapping_facts::Mapping;
use queries::{Atom, Query};
use source_tables::Table;
use std::alloc::{AllocError, Global};
use std::test::Fail;
use vocabulary::{ClassId, Dir, LinkId, List, Term};

fn push_tuple(text: &mut String, tuple: &[Term]) -> Result<(), AllocError> {
    for term in tuple {
        if let Term::Named(name) = term {
            text.push_str(name.text())?;
        }
        text.push(';')?;
    }
    Ok(())
}

// The IRIs of the tuples, each with a semicolon behind it.
fn spell(alloc: Global, found: &Answers) -> Result<String, AllocError> {
    let mut text = String::new(alloc);
    for tuple in found.tuples() {
        push_tuple(&mut text, tuple.items())?;
    }
    Ok(text)
}

fn are_answers(
    alloc: Global,
    specification: &Specification,
    tables: &[Table],
    query: &Query,
    want: &str,
) -> Result<bool, AllocError>
    requires known { KnownConstants query.now }
    requires stands { HeadStands query.now }
    requires head { length query.now.head ≡ 1 }
    requires few { length query.now.atoms ≤ 2 }
{
    match answers(alloc, specification, tables, query) {
        Ok(found) => Ok(spell(alloc, &found)?.as_str() == want),
        Err(_) => Ok(false),
    }
}

// The answers under a model.
fn answer(
    alloc: Global,
    tbox: &Tbox,
    mappings: &[Mapping],
    tables: &[Table],
    query: &Query,
    want: &str,
) -> Result<bool, Fail>
    requires fit { AreFit mappings.now }
    requires known { KnownConstants query.now }
    requires stands { HeadStands query.now }
    requires head { length query.now.head ≡ 1 }
    requires few { length query.now.atoms ≤ 2 }
{
    let specification = ready(alloc, tbox, mappings)?;
    Ok(are_answers(alloc, &specification, tables, query, want)?)
}

fn class(number: u32) -> Basic {
    Basic::Class(ClassId(number))
}

// Each B is an A, and p leads from an A to a C.
fn model(alloc: Global) -> Result<Tbox, AllocError> {
    let mut axioms = List::new(alloc);
    axioms.push(Axiom::Sub(class(1), class(0)))?;
    axioms.push(Axiom::Sub(Basic::Has(LinkId(0), Dir::Fwd), class(0)))?;
    axioms.push(Axiom::Sub(Basic::Has(LinkId(0), Dir::Back), class(2)))?;
    Ok(Tbox::new(axioms, List::new(alloc)))
}

fn are_linked(
    alloc: Global,
    mappings: &[Mapping],
    tables: &[Table],
    first: Atom,
    second: Option<Atom>,
    want: &str,
) -> Result<bool, Fail>
    requires fit { AreFit mappings.now }
    requires first { KnownAtom first }
    requires second { IfSome second KnownAtom }
    requires stands { 1 ≤ atom_occurs (record { 0 = 0 }) first }
{
    let query = query(alloc, first, second)?;
    answer(alloc, &model(alloc)?, mappings, tables, &query, want)
}

// One A is so by B, one by p, and one by both; of the first ends of p one is a B, and each is an A.
#[test]
fn subclasses_and_ends_of_links(rt: HostRuntime) -> Result<(), Fail> {
    let alloc = rt.alloc();
    let owned = mapped::linked(alloc)?;
    let mappings = owned.as_slice();
    let table = table(alloc, b"a,b\n2,3\n1,2")?;
    let tables = table.as_slice();
    let all = "http://e/1;http://e/2;http://e/3;";
    assert!(rt; are_linked(alloc, mappings, tables, in_class(0), None, all)?);
    let ends = "http://e/1;http://e/2;";
    assert!(rt; are_linked(alloc, mappings, tables, in_class(2), None, ends)?);
    let both = Some(linked(0));
    assert!(rt; are_linked(alloc, mappings, tables, in_class(1), both, "http://e/2;")?);
    let asked = Some(linked(0));
    let first = "http://e/2;http://e/3;";
    assert!(rt; are_linked(alloc, mappings, tables, in_class(0), asked, first)?);
    Ok(())
}

fn are_first_ends(
    alloc: Global,
    mappings: &[Mapping],
    tables: &[Table],
    dir: Dir,
    want: &str,
) -> Result<bool, Fail>
    requires { AreFit mappings.now }
{
    let mut axioms = List::new(alloc);
    axioms.push(Axiom::SubLink(LinkId(0), dir, LinkId(1)))?;
    let tbox = Tbox::new(axioms, List::new(alloc));
    let query = query(alloc, linked(1), None)?;
    answer(alloc, &tbox, mappings, tables, &query, want)
}

// What p leads from, a link above p leads from, or leads to where the ends are exchanged. No mapping names it.
#[test]
fn links_above_others(rt: HostRuntime) -> Result<(), Fail> {
    let alloc = rt.alloc();
    let owned = mapped::linked(alloc)?;
    let mappings = owned.as_slice();
    let table = table(alloc, b"a,b\n2,3\n1,2")?;
    let tables = table.as_slice();
    let kept = "http://e/2;http://e/3;";
    assert!(rt; are_first_ends(alloc, mappings, tables, Dir::Fwd, kept)?);
    let turned = "http://e/1;http://e/2;";
    assert!(rt; are_first_ends(alloc, mappings, tables, Dir::Back, turned)?);
    Ok(())
}

fn are_members(
    alloc: Global,
    mappings: &[Mapping],
    tables: &[Table],
    class: u32,
    want: &str,
) -> Result<bool, Fail>
    requires { AreFit mappings.now }
{
    let tbox = Tbox::new(List::new(alloc), List::new(alloc));
    let query = query(alloc, in_class(class), None)?;
    answer(alloc, &tbox, mappings, tables, &query, want)
}

// A null is equal to nothing, different from nothing, and the text of no object.
#[test]
fn nulls_give_no_answers(rt: HostRuntime) -> Result<(), Fail> {
    let mappings = mapped::three(rt.alloc())?;
    let tables = table(rt.alloc(), b"a,b\n1,\n2,2")?;
    for class in 0..3u32 {
        assert!(rt;
            are_members(
                rt.alloc(),
                mappings.as_slice(),
                tables.as_slice(),
                class,
                "http://e/2;"
            )?,
            "{class}"
        );
    }
    Ok(())
}

// A link with a null at one end gives no class of the other.
#[test]
fn links_with_a_null_give_no_classes(rt: HostRuntime) -> Result<(), Fail> {
    let alloc = rt.alloc();
    let owned = mapped::joined(alloc)?;
    let mappings = owned.as_slice();
    let table = table(alloc, b"a,b\n,1\n2,\n3,4")?;
    let tables = table.as_slice();
    assert!(rt; are_linked(alloc, mappings, tables, in_class(0), None, "http://e/4;")?);
    assert!(rt; are_linked(alloc, mappings, tables, in_class(2), None, "http://e/3;")?);
    Ok(())
}

// Two classes with 70 subclasses each.
fn with_subclasses(alloc: Global) -> Result<Tbox, AllocError> {
    let mut axioms = List::new(alloc);
    for sub in 0..70u8 {
        axioms.push(Axiom::Sub(class(2 + sub as u32), class(0)))?;
        axioms.push(Axiom::Sub(class(72 + sub as u32), class(1)))?;
    }
    Ok(Tbox::new(axioms, List::new(alloc)))
}

// Its rewriting has 71 times 71 members, and one fold.
#[test]
fn many_subclasses_are_not_too_wide(rt: HostRuntime) -> Result<(), Fail> {
    let alloc = rt.alloc();
    let mappings = mapped::members_of_two(alloc, 71, 141)?;
    let tables = table(alloc, b"a,b\n2,\n1,")?;
    let query = query(alloc, in_class(0), Some(in_class(1)))?;
    let want = "http://e/1;http://e/2;";
    let tbox = with_subclasses(alloc)?;
    assert!(rt;
        answer(
            alloc,
            &tbox,
            mappings.as_slice(),
            tables.as_slice(),
            &query,
            want
        )?
    );
    Ok(())
}
