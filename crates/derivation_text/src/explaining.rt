//! Writing explanations.
ghost use Rattle.std.specs.Prelude.{◌≡◌, ◌++◌, codes, map, string_bytes, IfOk, OnOk};
ghost use Rattle.derivation_text.specs.Explaining.{atom_line, atom_lines, explanation_text};
ghost use Rattle.derivation_text.specs.Writing.{lines_text};

use crate::writing::{push_spaced, push_steps};
use conflict_checker::Step;
use mapping_facts::Mapping;
use std::alloc::{AllocError, Global};
use vocabulary::Name;

fn push_atom(alloc: Global, text: &mut String, number: u64, step: u32) -> Result<(), AllocError>
    ensures { OnOk result (string_bytes text.new ≡ string_bytes text.old ++ (atom_line number step ++ codes "\n")) }
{
    text.push_str("atom")?;
    push_spaced(alloc, text, number)?;
    text.push_str(" step")?;
    push_spaced(alloc, text, step as u64)?;
    text.push_str("\n")
}

// The lines of atoms, numbered from 1.
fn push_atoms(alloc: Global, text: &mut String, atoms: &[u32]) -> Result<(), AllocError>
    ensures { OnOk result (string_bytes text.new ≡ string_bytes text.old ++ lines_text (atom_lines 1 atoms.now)) }
{
    for (at, step) in atoms.iter().enumerate() {
        push_atom(alloc, text, at as u64 + 1, *step)?;
    }
    Ok(())
}

/// The text of an explanation, in which the mappings stand by their names: its steps, and the number of
/// the step of each atom.
pub fn explain(
    alloc: Global,
    steps: &[Step],
    atoms: &[u32],
    mappings: &[Mapping],
) -> Result<Name, AllocError>
    ensures { IfOk result (λ text. text ≡ explanation_text (map (λ m. m.name) mappings.now) steps.now atoms.now) }
{
    let mut text = String::new(alloc);
    push_steps(alloc, &mut text, mappings, steps)?;
    push_atoms(alloc, &mut text, atoms)?;
    text.push_str("end\n")?;
    Ok(Name::from_string(text))
}
