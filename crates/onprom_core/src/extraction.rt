//! The job of `extract`.
ghost use Rattle.std.specs.Prelude.{◌≡◌, ◌≤◌, false, length, IfOk, OnOk};
ghost use Rattle.log_assembly.specs.Answered.{IsInOrder};
ghost use Rattle.onprom_core.specs.Extracted.{ExtractedFrom};
ghost use Rattle.onprom_core.specs.Jobs.{EndsExtraction, clash_end};
ghost use Rattle.onprom_core.specs.Meaning.{AreContradictions, IsConsistentProject, IsReadBack, tbox as tbox_of};
ghost use Rattle.onprom_core.specs.Outputs.{EndsWell, ended};
ghost use Rattle.project_language.specs.Sound.{IsSound};

use crate::Status;
use crate::consistency::{contradictions, spelled};
use crate::lines::line_of;
use crate::output::{Output, Text};
use crate::specifying::specification;
use crate::width::too_wide;
use conflict_checker::Derivation;
use dllite_axioms::Tbox;
use log_assembly::{Asked, ask, assemble, report};
use perfect_rewriting::RewriteFault;
use project_language::Project;
use source_tables::Table;
use std::alloc::{AllocError, Global};

/// The log of a project over its tables, whose annotations lack nothing, or what contradicts it.
pub(crate) fn extraction(
    alloc: Global,
    project: &Project,
    tables: &[Table],
) -> Result<Output, AllocError>
    requires sound { IsSound project.now }
    ensures ends { IfOk result (λ o. EndsExtraction project.now tables.now (ended o)) }
    ensures well { IfOk result (EndsWell false) }
{
    let tbox = project.tbox(alloc)?;
    let found = contradictions(alloc, &tbox, project, tables)?;
    if found.is_empty() {
        return logged(alloc, &tbox, project, tables);
    }
    contradicted(alloc, project, tables, found.items())
}

fn contradicted(
    alloc: Global,
    project: &Project,
    tables: &[Table],
    found: &[Derivation],
) -> Result<Output, AllocError>
    requires sound { IsSound project.now }
    requires contradictions { AreContradictions project.now tables.now found.now }
    requires some { 1 ≤ length found.now }
    ensures end { IfOk result (λ o. ended o ≡ clash_end project.now found.now) }
    ensures read_back { OnOk result (IsReadBack project.now found.now) }
    ensures well { IfOk result (EndsWell false) }
{
    let text = spelled(alloc, project, tables, found)?;
    let report = line_of(alloc, text.text().as_bytes())?;
    Ok(Output {
        status: Status::Conflict,
        text: Text::none(alloc),
        report,
    })
}

// The log of a consistent project.
fn logged(
    alloc: Global,
    tbox: &Tbox,
    project: &Project,
    tables: &[Table],
) -> Result<Output, AllocError>
    requires sound { IsSound project.now }
    requires axioms { tbox.now ≡ tbox_of project.now }
    requires consistent { IsConsistentProject project.now tables.now }
    ensures ends { IfOk result (λ o. EndsExtraction project.now tables.now (ended o)) }
    ensures well { IfOk result (EndsWell false) }
{
    let notes = project.noted.notes();
    let specification = specification(alloc, tbox, project)?;
    match ask(alloc, notes, &specification, tables) {
        Ok(asked) => extracted(alloc, project, &asked),
        Err(RewriteFault::TooWide) => too_wide(alloc),
        Err(RewriteFault::NoMemory) => Err(AllocError),
    }
}

fn extracted(alloc: Global, project: &Project, asked: &Asked) -> Result<Output, AllocError>
    requires { IsInOrder asked.now }
    ensures extracted { IfOk result (λ o. ExtractedFrom project.now asked.now (ended o)) }
    ensures well { IfOk result (EndsWell false) }
{
    let notes = project.noted.notes();
    let log = assemble(alloc, notes, asked)?;
    let said = report(alloc, notes, asked, &log)?;
    let report = line_of(alloc, &said)?;
    Ok(Output {
        status: Status::Done,
        text: Text::Log(log),
        report,
    })
}
