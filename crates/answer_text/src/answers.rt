//! The text of answers, a line for each tuple.
ghost use Rattle.std.specs.Prelude.{◌≡◌, ◌++◌, codes, map, IfOk, OnOk};
ghost use Rattle.answer_text.specs.Answers.{answers_report, answers_text, each_behind, term_text, tuple_text, why_report};

use crate::pieces::{count_line, push, push_quoted};
use std::alloc::{AllocError, Global};
use vocabulary::{List, Term};

fn push_term(out: &mut Vec<u8>, term: &Term) -> Result<(), AllocError>
    ensures { OnOk result (out.new.items ≡ out.old.items ++ term_text term.now) }
{
    match term {
        Term::Named(iri) => {
            push(out, "<")?;
            push(out, iri.text())?;
            push(out, ">")
        }
        Term::Value(_, text) => push_quoted(out, text.text()),
        Term::New(_, _, _) => Ok(()),
    }
}

fn push_terms_behind(out: &mut Vec<u8>, terms: &[Term]) -> Result<(), AllocError>
    ensures { OnOk result (out.new.items ≡ out.old.items ++ each_behind (codes " ") (map term_text terms.now)) }
{
    for term in terms {
        push(out, " ")?;
        push_term(out, term)?;
    }
    Ok(())
}

fn push_tuple(out: &mut Vec<u8>, tuple: &[Term]) -> Result<(), AllocError>
    ensures { OnOk result (out.new.items ≡ out.old.items ++ tuple_text tuple.now) }
{
    match tuple {
        [] => push(out, "()"),
        [first, rest @ ..] => {
            push_term(out, first)?;
            push_terms_behind(out, rest)
        }
    }
}

/// The lines of these tuples, in their order.
pub fn answers_text(alloc: Global, tuples: &[List<Term>]) -> Result<List<u8>, AllocError>
    ensures { IfOk result (λ text. text ≡ answers_text tuples.now) }
{
    let mut out = Vec::new(alloc);
    for tuple in tuples {
        push_tuple(&mut out, tuple.items())?;
        push(&mut out, "\n")?;
    }
    Ok(List::from_vec(out))
}

/// The line that counts the answers.
pub fn answers_report(alloc: Global, tuples: &[List<Term>]) -> Result<List<u8>, AllocError>
    ensures { IfOk result (λ text. text ≡ answers_report tuples.now) }
{
    count_line(alloc, "answers ", tuples.len())
}

/// The line that says which answer is explained.
pub fn why_report(alloc: Global, tuple: &[Term]) -> Result<List<u8>, AllocError>
    ensures { IfOk result (λ text. text ≡ why_report tuple.now) }
{
    let mut out = Vec::new(alloc);
    push(&mut out, "why ")?;
    push_tuple(&mut out, tuple)?;
    push(&mut out, "\n")?;
    Ok(List::from_vec(out))
}
