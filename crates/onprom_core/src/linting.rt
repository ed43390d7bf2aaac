//! The command `lint`: the void classes and links of a model.
ghost use Rattle.std.specs.Prelude.{◌≡◌, false, IfSome, IfOk, IfErr};
ghost use Rattle.answer_text.specs.Voids.{voids_report, voids_text};
ghost use Rattle.onprom_core.specs.Causes.{CountsReading, IsLocal, SaysUsage};
ghost use Rattle.onprom_core.specs.Jobs.{EndsLint};
ghost use Rattle.onprom_core.specs.Outputs.{EndsWell, Works, ended, lint_rest};
ghost use Rattle.onprom_core.specs.Rewritten.{done_with};
ghost use Rattle.onprom_core.specs.Walk.{lint_step};
ghost use Rattle.project_language.specs.Sound.{IsSound};

use crate::Status;
use crate::halt::Halt;
use crate::lines::line_of;
use crate::model_names::{class_names, link_names};
use crate::output::{Output, Text};
use crate::reading::project_read;
use answer_text::{voids_report, voids_text};
use model_lint::{VoidProof, voids};
use outside::Shelf;
use project_language::Project;
use std::alloc::{AllocError, Global};
use vocabulary::List;

/// Reads the project, and proves of each void class and link that it is void.
#[tactic(auto, unfolding(crate::specs::Walk::lint_step))]
pub(crate) fn lint<S: Shelf>(alloc: Global, shelf: &mut S, name: &str) -> Result<Output, Halt>
    ensures held { S.held shelf.new ≡ S.held shelf.old }
    ensures told { IfSome (S.held shelf.old) (λ files. Works result (lint_step files name.now)) }
    ensures well { IfOk result (EndsWell false) }
    ensures usage { IfErr result (λ h. SaysUsage h → ⊥) }
    ensures counts { CountsReading (S.faults shelf.old) (S.faults shelf.new)
        (S.absences shelf.old) (S.absences shelf.new) (S.failed shelf.new) result }
{
    let project = project_read(alloc, shelf, name)?;
    lint_from(alloc, &project)
}

fn lint_from(alloc: Global, project: &Project) -> Result<Output, Halt>
    requires { IsSound project.now }
    ensures told { Works result (lint_rest project.now) }
    ensures well { IfOk result (EndsWell false) }
    ensures usage { IfErr result (λ h. SaysUsage h → ⊥) }
    ensures local { IfErr result IsLocal }
{
    let output = linting(alloc, project)?;
    Ok(output)
}

fn linting(alloc: Global, project: &Project) -> Result<Output, AllocError>
    requires { IsSound project.now }
    ensures ends { IfOk result (λ o. EndsLint project.now (ended o)) }
    ensures well { IfOk result (EndsWell false) }
{
    let tbox = project.tbox(alloc)?;
    let found = voids(alloc, &tbox, project.model.classes(), project.model.links())?;
    listed(alloc, project, found.items())
}

fn listed(alloc: Global, project: &Project, proofs: &[VoidProof]) -> Result<Output, AllocError>
    ensures end { IfOk result (λ o. ended o ≡ done_with (voids_text project.now.model.classes project.now.model.links proofs.now) (voids_report proofs.now)) }
    ensures well { IfOk result (EndsWell false) }
{
    let text = printed(alloc, project, proofs)?;
    let said = voids_report(alloc, proofs)?;
    let report = line_of(alloc, said.items())?;
    Ok(Output {
        status: Status::Done,
        text: Text::Bytes(text),
        report,
    })
}

fn printed(alloc: Global, project: &Project, proofs: &[VoidProof]) -> Result<List<u8>, AllocError>
    ensures { IfOk result (λ text. text ≡ voids_text project.now.model.classes project.now.model.links proofs.now) }
{
    let classes = class_names(alloc, &project.model)?;
    let links = link_names(alloc, &project.model)?;
    voids_text(alloc, classes.items(), links.items(), proofs)
}
