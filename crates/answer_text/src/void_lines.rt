//! The text of proofs that classes and links are void.
ghost use Rattle.std.specs.Prelude.{◌≡◌, ◌++◌, codes, decimal, get_or, [], IfOk, OnOk};
ghost use Rattle.answer_text.specs.Voids.{clash_line, rule_line, rule_lines, void_lines, void_name, voids_report, voids_text};

use crate::pieces::{count_line, push, push_name, push_number};
use model_lint::{Void, VoidProof};
use std::alloc::{AllocError, Global};
use vocabulary::{List, Name};

fn push_what(
    out: &mut Vec<u8>,
    classes: &[Name],
    links: &[Name],
    what: Void,
) -> Result<(), AllocError>
    ensures { OnOk result (out.new.items ≡ out.old.items ++ void_name classes.now links.now what) }
{
    match what {
        Void::Class(class) => {
            push(out, "void class ")?;
            push_name(out, classes, class.0)
        }
        Void::Link(link) => {
            push(out, "void link ")?;
            push_name(out, links, link.0)
        }
    }
}

fn push_rule(
    alloc: Global,
    out: &mut Vec<u8>,
    number: u64,
    rule: (u32, u32),
) -> Result<(), AllocError>
    ensures { OnOk result (out.new.items ≡ out.old.items ++ rule_line number rule) }
{
    push_number(alloc, out, number)?;
    push(out, " rule ")?;
    push_number(alloc, out, rule.0 as u64)?;
    push(out, " from ")?;
    push_number(alloc, out, rule.1 as u64)?;
    push(out, "\n")
}

// The steps behind the first.
fn push_rules(alloc: Global, out: &mut Vec<u8>, rules: &[(u32, u32)]) -> Result<(), AllocError>
    ensures { OnOk result (out.new.items ≡ out.old.items ++ rule_lines 2 rules.now) }
{
    for (at, rule) in rules.iter().enumerate() {
        push_rule(alloc, out, at as u64 + 2, *rule)?;
    }
    Ok(())
}

fn push_clash(alloc: Global, out: &mut Vec<u8>, proof: &VoidProof) -> Result<(), AllocError>
    ensures { OnOk result (out.new.items ≡ out.old.items ++ clash_line proof.now) }
{
    push(out, "clash ")?;
    push_number(alloc, out, proof.constraint as u64)?;
    push(out, " ")?;
    push_number(alloc, out, proof.first as u64)?;
    push(out, " ")?;
    push_number(alloc, out, proof.second as u64)?;
    push(out, "\n")
}

#[tactic(auto, unfolding(crate::specs::Voids::void_lines))]
fn push_proof(
    alloc: Global,
    out: &mut Vec<u8>,
    classes: &[Name],
    links: &[Name],
    proof: &VoidProof,
) -> Result<(), AllocError>
    ensures { OnOk result (out.new.items ≡ out.old.items ++ void_lines classes.now links.now proof.now) }
{
    push_what(out, classes, links, proof.what)?;
    push(out, "\n1 fact\n")?;
    push_rules(alloc, out, proof.rules.items())?;
    push_clash(alloc, out, proof)
}

/// The proofs in their order, by the names of the classes and of the links, and the line `end`.
pub fn voids_text(
    alloc: Global,
    classes: &[Name],
    links: &[Name],
    proofs: &[VoidProof],
) -> Result<List<u8>, AllocError>
    ensures { IfOk result (λ text. text ≡ voids_text classes.now links.now proofs.now) }
{
    let mut out = Vec::new(alloc);
    for proof in proofs {
        push_proof(alloc, &mut out, classes, links, proof)?;
    }
    push(&mut out, "end\n")?;
    Ok(List::from_vec(out))
}

/// The line that counts what is void.
pub fn voids_report(alloc: Global, proofs: &[VoidProof]) -> Result<List<u8>, AllocError>
    ensures { IfOk result (λ text. text ≡ voids_report proofs.now) }
{
    count_line(alloc, "void ", proofs.len())
}
