//! The job of `check`.
ghost use Rattle.std.specs.Prelude.{◌≡◌, ◌≤◌, true, length, IfOk, OnOk};
ghost use Rattle.onprom_core.specs.Jobs.{EndsCheck, consistent_end, contradicted_end};
ghost use Rattle.onprom_core.specs.Meaning.{AreContradictions, IsReadBack, contradicted_lines};
ghost use Rattle.onprom_core.specs.Outputs.{EndsWell, ended};
ghost use Rattle.project_language.specs.Sound.{IsSound};

use crate::Status;
use crate::consistency::{contradictions, spelled};
use crate::lines::{line_of, numbered_line};
use crate::output::{Output, Text};
use conflict_checker::Derivation;
use outside::Bytes;
use project_language::Project;
use source_tables::Table;
use std::alloc::{AllocError, Global};
use vocabulary::List;

/// Whether a project is consistent over its tables, and what contradicts it.
pub(crate) fn checking(
    alloc: Global,
    project: &Project,
    tables: &[Table],
) -> Result<Output, AllocError>
    requires sound { IsSound project.now }
    ensures ends { IfOk result (λ o. EndsCheck project.now tables.now (ended o)) }
    ensures well { IfOk result (EndsWell true) }
{
    let tbox = project.tbox(alloc)?;
    let found = contradictions(alloc, &tbox, project, tables)?;
    if found.is_empty() {
        return consistent(alloc);
    }
    contradicted(alloc, project, tables, found.items())
}

fn consistent(alloc: Global) -> Result<Output, AllocError>
    ensures end { IfOk result (λ o. ended o ≡ consistent_end) }
    ensures well { IfOk result (EndsWell true) }
{
    let report = line_of(alloc, b"consistent\n")?;
    Ok(Output {
        status: Status::Done,
        text: Text::none(alloc),
        report,
    })
}

fn contradicted(
    alloc: Global,
    project: &Project,
    tables: &[Table],
    found: &[Derivation],
) -> Result<Output, AllocError>
    requires sound { IsSound project.now }
    requires contradictions { AreContradictions project.now tables.now found.now }
    requires some { 1 ≤ length found.now }
    ensures end { IfOk result (λ o. ended o ≡ contradicted_end project.now found.now) }
    ensures read_back { OnOk result (IsReadBack project.now found.now) }
    ensures well { IfOk result (EndsWell true) }
{
    let report = contradicted_lines(alloc, found)?;
    let text = spelled(alloc, project, tables, found)?;
    Ok(Output {
        status: Status::Conflict,
        text: Text::Bytes(List::from_vec(Vec::from_slice(alloc, text.text().as_bytes())?)),
        report,
    })
}

// A line for each constraint.
fn contradicted_lines(alloc: Global, found: &[Derivation]) -> Result<Bytes, AllocError>
    ensures { IfOk result (λ report. report ≡ contradicted_lines found.now) }
{
    let mut report = Bytes::new(alloc);
    for derivation in found {
        let line = numbered_line(alloc, b"contradicted ", derivation.constraint as u64)?;
        report.append(line.slice())?;
    }
    Ok(report)
}
