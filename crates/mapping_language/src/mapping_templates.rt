//! The templates of a mapping line, and what is wrong with them.
ghost use Rattle.std.specs.Prelude.{◌≡◌, IfOk};
ghost use Rattle.std.specs.List.{list_any, flat_map};
ghost use Rattle.iri_templates.specs.Templates.{template_of};
ghost use Rattle.mapping_language.specs.Mappings.{template_texts, terms_of, all_templates};
ghost use Rattle.mapping_language.specs.Flaws.{has_flaw};
ghost use Rattle.mapping_language.specs.Shown.{term_shown, target_shown, map_shown};

use crate::written::{MapLine, Target, Term};
use iri_templates::{Template, TemplateFault};
use std::alloc::{AllocError, Global};

/// What may be wrong with a template's text.
#[derive(Clone, Copy)]
pub(crate) enum Flaw {
    /// It is no template, even if each hole were bounded.
    Bad,
    /// A hole of it is not bounded.
    Unbounded,
}

fn text_has(alloc: Global, flaw: Flaw, text: &str) -> Result<bool, AllocError>
    ensures { IfOk result (λ r. r ≡ has_flaw flaw (template_of text.now)) }
{
    match Template::parse(alloc, text) {
        Ok(_) => Ok(false),
        Err(TemplateFault::NoMemory) => Err(AllocError),
        Err(TemplateFault::NotBounded(_)) => Ok(matches!(flaw, Flaw::Unbounded)),
        Err(_) => Ok(matches!(flaw, Flaw::Bad)),
    }
}

fn term_has(alloc: Global, flaw: Flaw, term: &Term<'_>) -> Result<bool, AllocError>
    ensures { IfOk result (λ r. r ≡ list_any (λ text. has_flaw flaw (template_of text)) (template_texts (term_shown term.now))) }
{
    match term {
        Term::Iri(text) => text_has(alloc, flaw, text),
        Term::Column(_) => Ok(false),
        Term::Constant(_) => Ok(false),
    }
}

fn target_has(alloc: Global, flaw: Flaw, target: &Target<'_>) -> Result<bool, AllocError>
    ensures { IfOk result (λ r. r ≡ list_any (λ text. has_flaw flaw (template_of text)) (flat_map template_texts (terms_of (target_shown target.now)))) }
{
    match target {
        Target::One(_, a) => term_has(alloc, flaw, a),
        Target::Two(_, a, b) => {
            let first = term_has(alloc, flaw, a)?;
            let second = term_has(alloc, flaw, b)?;
            Ok(first || second)
        }
    }
}

fn targets_have(alloc: Global, flaw: Flaw, targets: &[Target<'_>]) -> Result<bool, AllocError>
    ensures { IfOk result (λ r. r ≡ list_any (λ t. list_any (λ text. has_flaw flaw (template_of text)) (flat_map template_texts (terms_of (target_shown t)))) targets.now) }
{
    for target in targets {
        if target_has(alloc, flaw, target)? {
            return Ok(true);
        }
    }
    Ok(false)
}

/// Whether a template of the line has the flaw.
#[tactic(auto, using(crate::proofs::Cells::flaws))]
pub(crate) fn has_flawed(alloc: Global, flaw: Flaw, line: &MapLine<'_>) -> Result<bool, AllocError>
    ensures { IfOk result (λ r. r ≡ list_any (λ text. has_flaw flaw (template_of text)) (all_templates (map_shown line.now))) }
{
    let flawed = targets_have(alloc, flaw, &line.targets)?;
    Ok(flawed)
}
