//! Answers and queries as they are printed.
use answer_text::{QueryNames, answers_report, answers_text, queries_report, queries_text};
use queries::{Arg, Atom, Query};
use std::alloc::{AllocError, Global};
use std::test::Fail;
use vocabulary::{ClassId, LinkId, List, Name, Term, ValueKind, VarId};

const ANSWERS: &str = "()
<http://e/r/1> \"a\\\\b\\\"\\t\\n\\r'\"
";

const QUERIES: &str = "(x) where Review(x)
(x) where about(x, _)
";

fn object(alloc: Global) -> Result<Term, AllocError> {
    Ok(Term::Named(Name::new(alloc, "http://e/r/1")?))
}

fn value(alloc: Global) -> Result<Term, AllocError> {
    let text = Name::new(alloc, "a\\b\"\t\n\r'")?;
    Ok(Term::Value(ValueKind::Text, text))
}

fn two_terms(alloc: Global) -> Result<List<Term>, AllocError> {
    let mut tuple = List::new(alloc);
    tuple.push(object(alloc)?)?;
    tuple.push(value(alloc)?)?;
    Ok(tuple)
}

fn tuples(alloc: Global) -> Result<List<List<Term>>, AllocError> {
    let mut tuples = List::new(alloc);
    tuples.push(List::new(alloc))?;
    tuples.push(two_terms(alloc)?)?;
    Ok(tuples)
}

fn is_text(bytes: &[u8], want: &str) -> bool {
    bytes == want.as_bytes()
}

fn are_answers(alloc: Global, tuples: &[List<Term>]) -> Result<bool, AllocError> {
    let text = answers_text(alloc, tuples)?;
    Ok(is_text(text.items(), ANSWERS))
}

fn are_two_answers(alloc: Global, tuples: &[List<Term>]) -> Result<bool, AllocError> {
    let text = answers_report(alloc, tuples)?;
    Ok(is_text(text.items(), "answers 2\n"))
}

#[test]
fn answers_are_printed(rt: HostRuntime) -> Result<(), Fail> {
    let tuples = tuples(rt.alloc())?;
    assert!(rt; are_answers(rt.alloc(), tuples.items())?);
    assert!(rt; are_two_answers(rt.alloc(), tuples.items())?);
    Ok(())
}

fn x() -> Arg {
    Arg::Var(VarId(0))
}

// What of x the atom holds.
fn query(alloc: Global, atom: Atom) -> Result<Query, AllocError> {
    let mut atoms = List::new(alloc);
    atoms.push(atom)?;
    let mut head = List::new(alloc);
    head.push(x())?;
    Ok(Query { head, atoms })
}

fn asked(alloc: Global) -> Result<List<Query>, AllocError> {
    let mut asked = List::new(alloc);
    asked.push(query(alloc, Atom::InClass(ClassId(0), x()))?)?;
    asked.push(query(alloc, Atom::Linked(LinkId(0), x(), Arg::Blank))?)?;
    Ok(asked)
}

fn names(alloc: Global, text: &str) -> Result<List<Name>, AllocError> {
    let mut names = List::new(alloc);
    for word in text.split(' ') {
        names.push(Name::new(alloc, word)?)?;
    }
    Ok(names)
}

// The names are of a variable, a class and a link.
fn are_queries(alloc: Global, all: &[Name], asked: &[Query]) -> Result<bool, AllocError> {
    if all.len() < 3 {
        return Ok(false);
    }
    let names = QueryNames {
        variables: all,
        classes: &all[1..],
        links: &all[2..],
    };
    let text = queries_text(alloc, &names, asked)?;
    Ok(is_text(text.items(), QUERIES))
}

fn are_two_queries(alloc: Global, asked: &[Query]) -> Result<bool, AllocError> {
    let text = queries_report(alloc, asked)?;
    Ok(is_text(text.items(), "queries 2\n"))
}

#[test]
fn queries_are_printed(rt: HostRuntime) -> Result<(), Fail> {
    let names = names(rt.alloc(), "x Review about")?;
    let asked = asked(rt.alloc())?;
    assert!(rt; are_queries(rt.alloc(), names.items(), asked.items())?);
    assert!(rt; are_two_queries(rt.alloc(), asked.items())?);
    Ok(())
}
