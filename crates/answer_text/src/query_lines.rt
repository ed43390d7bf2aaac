//! The text of queries, a line for each.
ghost use Rattle.std.specs.Prelude.{◌≡◌, ◌++◌, [], ◌∷◌, codes, map, IfOk, OnOk};
ghost use Rattle.answer_text.specs.Answers.{each_behind, joined};
ghost use Rattle.answer_text.specs.Queries.{argument_text, arguments_text, atom_text, constant_text, queries_report, queries_text, query_text};

use crate::pieces::{count_line, push, push_name, push_quoted};
use queries::{Arg, Atom, Query};
use std::alloc::{AllocError, Global};
use vocabulary::{List, Name, Term};

/// The names by which queries are printed, each by its number; a number without a name prints nothing.
#[derive(Clone, Copy, Debug)]
pub struct QueryNames<'a> {
    pub variables: &'a [Name],
    pub classes: &'a [Name],
    pub links: &'a [Name],
}

fn push_constant(out: &mut Vec<u8>, term: &Term) -> Result<(), AllocError>
    ensures { OnOk result (out.new.items ≡ out.old.items ++ constant_text term.now) }
{
    match term {
        Term::Named(iri) => {
            push(out, "iri \"")?;
            push(out, iri.text())?;
            push(out, "\"")
        }
        Term::Value(_, text) => push_quoted(out, text.text()),
        Term::New(_, _, _) => Ok(()),
    }
}

fn push_argument(out: &mut Vec<u8>, names: &[Name], argument: &Arg) -> Result<(), AllocError>
    ensures { OnOk result (out.new.items ≡ out.old.items ++ argument_text names.now argument.now) }
{
    match argument {
        Arg::Blank => push(out, "_"),
        Arg::Var(variable) => push_name(out, names, variable.0),
        Arg::Fixed(term) => push_constant(out, term),
    }
}

fn push_arguments_behind(
    out: &mut Vec<u8>,
    names: &[Name],
    arguments: &[Arg],
) -> Result<(), AllocError>
    ensures { OnOk result (out.new.items ≡ out.old.items ++ each_behind (codes ", ") (map (argument_text names.now) arguments.now)) }
{
    for argument in arguments {
        push(out, ", ")?;
        push_argument(out, names, argument)?;
    }
    Ok(())
}

fn push_joined_arguments(
    out: &mut Vec<u8>,
    names: &[Name],
    arguments: &[Arg],
) -> Result<(), AllocError>
    ensures { OnOk result (out.new.items ≡ out.old.items ++ joined (codes ", ") (map (argument_text names.now) arguments.now)) }
{
    match arguments {
        [] => Ok(()),
        [first, rest @ ..] => {
            push_argument(out, names, first)?;
            push_arguments_behind(out, names, rest)
        }
    }
}

fn push_head(out: &mut Vec<u8>, names: &[Name], head: &[Arg]) -> Result<(), AllocError>
    ensures { OnOk result (out.new.items ≡ out.old.items ++ arguments_text names.now head.now) }
{
    push(out, "(")?;
    push_joined_arguments(out, names, head)?;
    push(out, ")")
}

fn push_one(out: &mut Vec<u8>, names: &[Name], x: &Arg) -> Result<(), AllocError>
    ensures { OnOk result (out.new.items ≡ out.old.items ++ arguments_text names.now (x.now ∷ [])) }
{
    push(out, "(")?;
    push_argument(out, names, x)?;
    push(out, ")")
}

fn push_two(out: &mut Vec<u8>, names: &[Name], x: &Arg, y: &Arg) -> Result<(), AllocError>
    ensures { OnOk result (out.new.items ≡ out.old.items ++ arguments_text names.now (x.now ∷ y.now ∷ [])) }
{
    push(out, "(")?;
    push_argument(out, names, x)?;
    push(out, ", ")?;
    push_argument(out, names, y)?;
    push(out, ")")
}

fn push_atom(out: &mut Vec<u8>, names: &QueryNames, atom: &Atom) -> Result<(), AllocError>
    ensures { OnOk result (out.new.items ≡ out.old.items ++ atom_text names.now.variables.now names.now.classes.now names.now.links.now atom.now) }
{
    match atom {
        Atom::InClass(class, x) => {
            push_name(out, names.classes, class.0)?;
            push_one(out, names.variables, x)
        }
        Atom::Linked(link, x, y) => {
            push_name(out, names.links, link.0)?;
            push_two(out, names.variables, x, y)
        }
    }
}

fn push_atoms_behind(
    out: &mut Vec<u8>,
    names: &QueryNames,
    atoms: &[Atom],
) -> Result<(), AllocError>
    ensures { OnOk result (out.new.items ≡ out.old.items ++ each_behind (codes ", ") (map (atom_text names.now.variables.now names.now.classes.now names.now.links.now) atoms.now)) }
{
    for atom in atoms {
        push(out, ", ")?;
        push_atom(out, names, atom)?;
    }
    Ok(())
}

fn push_atoms(out: &mut Vec<u8>, names: &QueryNames, atoms: &[Atom]) -> Result<(), AllocError>
    ensures { OnOk result (out.new.items ≡ out.old.items ++ joined (codes ", ") (map (atom_text names.now.variables.now names.now.classes.now names.now.links.now) atoms.now)) }
{
    match atoms {
        [] => Ok(()),
        [first, rest @ ..] => {
            push_atom(out, names, first)?;
            push_atoms_behind(out, names, rest)
        }
    }
}

fn push_query(out: &mut Vec<u8>, names: &QueryNames, query: &Query) -> Result<(), AllocError>
    ensures { OnOk result (out.new.items ≡ out.old.items ++ query_text names.now.variables.now names.now.classes.now names.now.links.now query.now) }
{
    push_head(out, names.variables, query.head.items())?;
    push(out, " where ")?;
    push_atoms(out, names, query.atoms.items())
}

/// The lines of these queries, in their order.
pub fn queries_text(
    alloc: Global,
    names: &QueryNames,
    asked: &[Query],
) -> Result<List<u8>, AllocError>
    ensures { IfOk result (λ text. text ≡ queries_text names.now.variables.now names.now.classes.now names.now.links.now asked.now) }
{
    let mut out = Vec::new(alloc);
    for query in asked {
        push_query(&mut out, names, query)?;
        push(&mut out, "\n")?;
    }
    Ok(List::from_vec(out))
}

/// The line that counts the queries.
pub fn queries_report(alloc: Global, asked: &[Query]) -> Result<List<u8>, AllocError>
    ensures { IfOk result (λ text. text ≡ queries_report asked.now) }
{
    count_line(alloc, "queries ", asked.len())
}
