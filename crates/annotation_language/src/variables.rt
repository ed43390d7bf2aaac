//! The variables of a query, and their numbers.
ghost use Rattle.std.specs.Prelude.{◌≡◌, ◌<◌, ◌∷◌, [], length, IfOk, IfSome, OnOk, map, is_some};
ghost use Rattle.std.specs.List.{flat_map, list_any};
ghost use Rattle.std.specs.Str.{bytes_eq};
ghost use Rattle.vocabulary.specs.Texts.{number_of};
ghost use Rattle.annotation_language.specs.Lines.{each_once, variables_of, variables_of_argument, variables_of_atom};
ghost use Rattle.annotation_language.specs.Shown.{shown_argument, shown_atom, shown_query};
ghost use Rattle.annotation_language.specs.Resolved.{texts};

use crate::written::{Argument, Asked, WrittenAtom};
use indexmap::IndexSet;
use std::alloc::{AllocError, Global};

/// The number of a variable among these.
pub(crate) fn number_of(variables: &[&str], v: &str) -> Option<usize>
    ensures value { result ≡ number_of (texts variables.now) v.now }
    ensures found { is_some result ≡ list_any (bytes_eq v.now) (texts variables.now) }
    ensures below { IfSome result (λ n. n < length variables.now) }
{
    for n in 0..variables.len() {
        if v == variables[n] {
            return Some(n);
        }
    }
    None
}

// Adds the variable if it is not there.
fn add<'a>(found: &mut IndexSet<&'a str>, v: &'a str) -> Result<(), AllocError>
    ensures { OnOk result (texts found.new.keys ≡ each_once (texts found.old.keys) (v.now ∷ [])) }
{
    found.insert(v)?;
    Ok(())
}

// Adds the variable that the argument is.
fn add_argument<'a>(found: &mut IndexSet<&'a str>, argument: Argument<'a>) -> Result<(), AllocError>
    ensures { OnOk result (texts found.new.keys ≡ each_once (texts found.old.keys) (variables_of_argument (shown_argument argument.entry))) }
{
    match argument {
        Argument::Variable(v) => add(found, v),
        _ => Ok(()),
    }
}

#[tactic(auto, using(crate::proofs::Numbers::each_once_append))]
fn add_atom<'a>(found: &mut IndexSet<&'a str>, atom: &WrittenAtom<'a>) -> Result<(), AllocError>
    ensures { OnOk result (texts found.new.keys ≡ each_once (texts found.old.keys) (variables_of_atom (shown_atom atom.now))) }
{
    match atom {
        WrittenAtom::One(_, a) => add_argument(found, *a),
        WrittenAtom::Two(_, a, b) => {
            add_argument(found, *a)?;
            add_argument(found, *b)
        }
    }
}

// Adds the variables of the head.
fn add_head<'a>(found: &mut IndexSet<&'a str>, head: &[&'a str]) -> Result<(), AllocError>
    ensures { OnOk result (texts found.new.keys ≡ each_once (texts found.old.keys) (texts head.now)) }
{
    for v in head {
        add(found, v)?;
    }
    Ok(())
}

// Adds the variables of the atoms.
fn add_atoms<'a>(found: &mut IndexSet<&'a str>, atoms: &[WrittenAtom<'a>]) -> Result<(), AllocError>
    ensures { OnOk result (texts found.new.keys ≡ each_once (texts found.old.keys) (flat_map variables_of_atom (map shown_atom atoms.now))) }
{
    for atom in atoms {
        add_atom(found, atom)?;
    }
    Ok(())
}

/// The variables of a query by their numbers: by first appearance, the head before the atoms.
#[tactic(auto, using(crate::proofs::Numbers::each_once_append))]
pub(crate) fn variables_of<'a>(alloc: Global, query: &Asked<'a>) -> Result<Vec<&'a str>, AllocError>
    ensures { IfOk result (λ found. texts found.items ≡ variables_of (shown_query query.now)) }
{
    let mut found = IndexSet::new(alloc);
    add_head(&mut found, query.head.as_slice())?;
    add_atoms(&mut found, query.atoms.as_slice())?;
    Vec::from_slice(alloc, found.as_slice())
}
