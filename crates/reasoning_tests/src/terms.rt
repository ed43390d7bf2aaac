//! Numbering of names, and terms and facts against their copies.
use crate::written::named;
use sqlite_items::Boxed;
use std::alloc::{AllocError, Global};
use std::test::Fail;
use vocabulary::{ClassId, Dir, Fact, LinkId, List, Name, Names, Side, Term, ValueKind};

fn is_numbered(names: &mut Names, text: &str, number: u32) -> Result<bool, AllocError> {
    if names.len() < 3 {
        Ok(names.add(text)? == number)
    } else {
        Ok(false)
    }
}

fn are_two_names(names: &Names) -> bool {
    names.len() == 2 && names.text(1) == "B" && names.find("C") == None
}

#[test]
fn numbers_names_in_first_seen_order(rt: HostRuntime) -> Result<(), Fail> {
    let mut names = Names::new(rt.alloc());
    for (text, number) in [("A", 0), ("B", 1), ("A", 0)] {
        assert!(rt; is_numbered(&mut names, text, number)?);
    }
    assert!(rt; are_two_names(&names));
    Ok(())
}

fn seven(alloc: Global) -> Result<Term, AllocError> {
    Ok(Term::Value(ValueKind::Int, Name::new(alloc, "7")?))
}

fn fresh(alloc: Global) -> Result<Term, AllocError> {
    let parent = Boxed::new(alloc, named(alloc, "a")?)?;
    Ok(Term::New(LinkId(0), Dir::Fwd, parent))
}

fn is_term_copied(alloc: Global, term: &Term, known: bool) -> Result<bool, AllocError> {
    Ok(term.copy(alloc)?.same(term) && term.is_known() == known)
}

fn is_unlike_fresh(alloc: Global, term: &Term) -> Result<bool, AllocError> {
    let fresh = fresh(alloc)?;
    Ok(is_term_copied(alloc, &fresh, false)? && !fresh.same(term))
}

fn terms_are_copied(alloc: Global) -> Result<bool, AllocError> {
    let value = seven(alloc)?;
    Ok(
        is_term_copied(alloc, &value, true)?
            && is_unlike_fresh(alloc, &value)?
            && Side::of(&value) == Side::Value(ValueKind::Int),
    )
}

fn member(alloc: Global) -> Result<Fact, AllocError> {
    Ok(Fact::InClass(ClassId(0), named(alloc, "a")?))
}

fn link(alloc: Global) -> Result<Fact, AllocError> {
    let fresh = fresh(alloc)?;
    Ok(Fact::Linked(LinkId(0), named(alloc, "a")?, fresh))
}

fn two_facts(alloc: Global) -> Result<List<Fact>, AllocError> {
    let mut facts = List::new(alloc);
    facts.push(member(alloc)?)?;
    facts.push(link(alloc)?)?;
    Ok(facts)
}

fn is_fact_copied(alloc: Global, fact: &Fact) -> Result<bool, AllocError> {
    Ok(fact.copy(alloc)?.same(fact))
}

fn facts_are_copied(alloc: Global) -> Result<bool, AllocError> {
    let facts = two_facts(alloc)?;
    match facts.items() {
        [one, other] => Ok(
            is_fact_copied(alloc, one)?
                && is_fact_copied(alloc, other)?
                && !one.same(other)
                && facts.len() == 2,
        ),
        _ => Ok(false),
    }
}

#[test]
fn copies_are_the_same(rt: HostRuntime) -> Result<(), Fail> {
    assert!(rt; terms_are_copied(rt.alloc())?);
    assert!(rt; facts_are_copied(rt.alloc())?);
    Ok(())
}

// As many fresh terms around a name.
fn nested(alloc: Global, depth: usize) -> Result<Term, AllocError> {
    let mut term = named(alloc, "a")?;
    for _ in 0..depth {
        term = Term::New(LinkId(0), Dir::Fwd, Boxed::new(alloc, term)?);
    }
    Ok(term)
}

fn is_nested(alloc: Global, term: &Term, depth: usize) -> Result<bool, AllocError> {
    Ok(nested(alloc, depth)?.same(term))
}

fn is_copied(alloc: Global, term: &Term) -> Result<bool, AllocError> {
    Ok(term.copy(alloc)?.same(term))
}

#[test]
fn deep_terms_fit_the_stack(rt: HostRuntime) -> Result<(), Fail> {
    let deep = nested(rt.alloc(), 1_000_000)?;
    assert!(rt; is_copied(rt.alloc(), &deep)?);
    assert!(rt; !is_nested(rt.alloc(), &deep, 999_999)?);
    Ok(())
}
