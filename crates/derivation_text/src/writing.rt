//! Writing derivations.
ghost use Rattle.std.specs.Prelude.{◌≡◌, ◌≤◌, ◌<◌, ◌^◌, ◌++◌, ◌∷◌, [], codes, decimal, length, map, string_bytes, IfOk, OnOk, Ok};
ghost use Rattle.std.specs.List.{flat_map};
ghost use Rattle.vocabulary.specs.Lists.{item};
ghost use Rattle.line_lexer.specs.Names.{AreNames};
ghost use Rattle.derivation_text.specs.Reading.{derivations_of};
ghost use Rattle.derivation_text.specs.Spelling.{AreWellFormed, Spells};
ghost use Rattle.line_lexer.specs.Judging.{text_or_none};
ghost use Rattle.derivation_text.specs.Writing.{clash_line, conflict_line, derivation_lines, derivations_text, lines_text, spaced, step_line, step_lines};

use conflict_checker::{Derivation, Step, item};
use mapping_facts::Mapping;
use std::alloc::{AllocError, Global};
use vocabulary::Name;

fn push_number(alloc: Global, text: &mut String, number: u64) -> Result<(), AllocError>
    ensures { OnOk result (string_bytes text.new ≡ string_bytes text.old ++ decimal number) }
{
    let digits = number.to_string(alloc)?;
    text.push_str(digits.as_str())
}

pub(crate) fn push_spaced(alloc: Global, text: &mut String, number: u64) -> Result<(), AllocError>
    ensures { OnOk result (string_bytes text.new ≡ string_bytes text.old ++ spaced number) }
{
    text.push_str(" ")?;
    push_number(alloc, text, number)
}

fn push_all(alloc: Global, text: &mut String, numbers: &[u32]) -> Result<(), AllocError>
    ensures { OnOk result (string_bytes text.new ≡ string_bytes text.old ++ flat_map spaced numbers.now) }
{
    for number in numbers {
        push_spaced(alloc, text, *number as u64)?;
    }
    Ok(())
}

// The name of the mapping of this number, counted from 1.
#[tactic(auto, using(crate::proofs::Naming::item_named))]
fn name_of(mappings: &[Mapping], number: u32) -> &str
    ensures { result.now ≡ text_or_none (item (map (λ m. m.name) mappings.now) number) }
{
    match item(mappings, number) {
        Some(mapping) => mapping.name.text(),
        None => "",
    }
}

#[tactic(auto, unfolding(crate::specs::Writing::step_line))]
fn push_step(
    alloc: Global,
    text: &mut String,
    mappings: &[Mapping],
    number: u64,
    step: &Step,
) -> Result<(), AllocError>
    ensures { OnOk result (string_bytes text.new ≡ string_bytes text.old ++ step_line (map (λ m. m.name) mappings.now) number step.now) }
{
    push_number(alloc, text, number)?;
    match step {
        Step::Mapped {
            mapping,
            target,
            rows,
        } => {
            text.push_str(" map ")?;
            text.push_str(name_of(mappings, *mapping))?;
            push_spaced(alloc, text, *target as u64)?;
            text.push_str(" rows")?;
            push_all(alloc, text, rows.items())
        }
        Step::Rule { axiom, step } => {
            text.push_str(" rule")?;
            push_spaced(alloc, text, *axiom as u64)?;
            text.push_str(" from")?;
            push_spaced(alloc, text, *step as u64)
        }
    }
}

/// The lines of steps, numbered from 1.
pub(crate) fn push_steps(
    alloc: Global,
    text: &mut String,
    mappings: &[Mapping],
    steps: &[Step],
) -> Result<(), AllocError>
    ensures { OnOk result (string_bytes text.new ≡ string_bytes text.old ++ lines_text (step_lines (map (λ m. m.name) mappings.now) 1 steps.now)) }
{
    for (at, step) in steps.iter().enumerate() {
        push_step(alloc, text, mappings, at as u64 + 1, step)?;
        text.push_str("\n")?;
    }
    Ok(())
}

fn push_conflict(alloc: Global, text: &mut String, constraint: u32) -> Result<(), AllocError>
    ensures { OnOk result (string_bytes text.new ≡ string_bytes text.old ++ (conflict_line constraint ++ codes "\n")) }
{
    text.push_str("conflict")?;
    push_spaced(alloc, text, constraint as u64)?;
    text.push_str("\n")
}

fn push_clash(alloc: Global, text: &mut String, ends: &[u32]) -> Result<(), AllocError>
    ensures { OnOk result (string_bytes text.new ≡ string_bytes text.old ++ (clash_line ends.now ++ codes "\n")) }
{
    text.push_str("clash")?;
    push_all(alloc, text, ends)?;
    text.push_str("\n")
}

fn push_derivation(
    alloc: Global,
    text: &mut String,
    mappings: &[Mapping],
    derivation: &Derivation,
) -> Result<(), AllocError>
    ensures { OnOk result (string_bytes text.new ≡ string_bytes text.old ++ lines_text (derivation_lines (map (λ m. m.name) mappings.now) derivation.now)) }
{
    push_conflict(alloc, text, derivation.constraint)?;
    push_steps(alloc, text, mappings, derivation.steps.items())?;
    push_clash(alloc, text, derivation.ends.items())
}

/// The text of the derivations, in which the mappings stand by their names. Read again, it gives the
/// list.
pub fn write(alloc: Global, list: &[Derivation], mappings: &[Mapping]) -> Result<Name, AllocError>
    requires names { AreNames (map (λ m. m.name) mappings.now) }
    requires some { 1 ≤ length list.now }
    requires well_formed { AreWellFormed (length mappings.now) list.now }
    ensures text { IfOk result (λ text. text ≡ derivations_text (map (λ m. m.name) mappings.now) list.now) }
    ensures spelled { IfOk result (λ text. Spells (map (λ m. m.name) mappings.now) text list.now) }
    ensures read { IfOk result (λ text. derivations_of (map (λ m. m.name) mappings.now) text ≡ Ok list.now) }
{
    let mut text = String::new(alloc);
    for derivation in list {
        push_derivation(alloc, &mut text, mappings, derivation)?;
    }
    text.push_str("end\n")?;
    Ok(Name::from_string(text))
}
