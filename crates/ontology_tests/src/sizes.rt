//! Limits, and texts that are long or deep.
use crate::cases::{fault_of, has_fault};
use line_lexer::Counted;
use owl_functional::OwlFault;
use std::alloc::{AllocError, Global};
use std::test::Fail;

fn push_times(text: &mut String, piece: &str, times: u32) -> Result<(), AllocError> {
    for _ in 0..times {
        text.push_str(piece)?;
    }
    Ok(())
}

fn push_declarations(
    alloc: Global,
    text: &mut String,
    kind: &str,
    count: u32,
) -> Result<(), AllocError> {
    for n in 0..count {
        let line = format!(in alloc; "Declaration({kind}(<c{n}>))\n")?;
        text.push_str(line.as_str())?;
    }
    Ok(())
}

// So many declarations of different names.
fn declared(alloc: Global, kind: &str, count: u32) -> Result<String, AllocError> {
    let mut text = String::from_str(alloc, "Ontology(\n")?;
    push_declarations(alloc, &mut text, kind, count)?;
    text.push_str(")")?;
    Ok(text)
}

fn has_declared(
    alloc: Global,
    kind: &str,
    count: u32,
    want: Option<OwlFault>,
) -> Result<bool, AllocError> {
    let text = declared(alloc, kind, count)?;
    Ok(fault_of(alloc, text.as_bytes()) == want)
}

// An ontology of one class and one property, and so many times the axiom.
fn repeated(alloc: Global, axiom: &str, times: u32) -> Result<String, AllocError> {
    let mut text = String::from_str(
        alloc,
        "Ontology(Declaration(Class(<A>)) Declaration(ObjectProperty(<p>)) ",
    )?;
    push_times(&mut text, axiom, times)?;
    text.push_str(")")?;
    Ok(text)
}

fn has_repeated(alloc: Global, axiom: &str, times: u32, want: &str) -> Result<bool, AllocError> {
    let text = repeated(alloc, axiom, times)?;
    has_fault(alloc, text.as_bytes(), want)
}

// The piece, 2 to the power of so many times.
fn doubled(alloc: Global, piece: &str, doublings: u32) -> Result<String, AllocError> {
    let mut text = String::from_str(alloc, piece)?;
    for _ in 0..doublings {
        let half = text.clone()?;
        text.push_str(half.as_str())?;
    }
    Ok(text)
}

// A million parentheses within one another, all on one line.
fn has_deep(alloc: Global, word: &str, want: &str) -> Result<bool, AllocError> {
    let opened = doubled(alloc, "(", 20)?;
    let closed = doubled(alloc, ")", 20)?;
    let text = format!(in alloc; "Ontology({word}{opened}{closed})")?;
    has_fault(alloc, text.as_bytes(), want)
}

#[test]
fn classes_and_properties_are_counted(rt: HostRuntime) -> Result<(), Fail> {
    let alloc = rt.alloc();
    let classes = Some(OwlFault::Limit(Counted::Classes));
    let links = Some(OwlFault::Limit(Counted::Links));
    assert!(rt; has_declared(alloc, "Class", 400, None)?);
    assert!(rt; has_declared(alloc, "Class", 401, classes)?);
    assert!(rt; has_declared(alloc, "DataProperty", 600, None)?);
    assert!(rt; has_declared(alloc, "ObjectProperty", 601, links)?);
    Ok(())
}

#[test]
fn axioms_and_constraints_are_counted(rt: HostRuntime) -> Result<(), Fail> {
    let alloc = rt.alloc();
    assert!(rt; has_repeated(alloc, "SubClassOf(<A> <A>)", 6000, "None")?);
    assert!(rt; has_repeated(alloc, "SubClassOf(<A> <A>)", 6001, "Some(Limit(Axioms))")?);
    assert!(rt; has_repeated(alloc, "DisjointClasses(<A> <A> <A>)", 1000, "None")?);
    assert!(rt;
        has_repeated(
            alloc,
            "DisjointClasses(<A> <A> <A>)",
            1001,
            "Some(Limit(Constraints))"
        )?
    );
    Ok(())
}

// A hundred thousand names, each looked up by each rule.
#[test]
fn many_names_are_read_in_linear_time(rt: HostRuntime) -> Result<(), Fail> {
    let classes = Some(OwlFault::Limit(Counted::Classes));
    assert!(rt; has_declared(rt.alloc(), "Class", 100000, classes)?);
    Ok(())
}

#[test]
fn deep_nests_take_no_stack(rt: HostRuntime) -> Result<(), Fail> {
    assert!(rt; has_deep(rt.alloc(), "AnnotationAssertion", "None")?);
    assert!(rt; has_deep(rt.alloc(), "HasKey", "Some(Unsupported(1))")?);
    Ok(())
}
