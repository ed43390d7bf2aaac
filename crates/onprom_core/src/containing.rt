//! The command `contained`: whether the answers of one query are answers of another.
ghost use Rattle.std.specs.Prelude.{◌≡◌, false, IfSome, IfOk, IfErr};
ghost use Rattle.annotation_language.specs.Askable.{IsAskable};
ghost use Rattle.answer_text.specs.Containment.{containment_report, containment_text};
ghost use Rattle.onprom_core.specs.Causes.{CountsReading, IsLocal, SaysUsage};
ghost use Rattle.onprom_core.specs.Jobs.{EndsContainment};
ghost use Rattle.onprom_core.specs.Outputs.{EndsWell, Works, contained_rest, ended};
ghost use Rattle.onprom_core.specs.Rewritten.{done_with};
ghost use Rattle.onprom_core.specs.Steps.{Gives};
ghost use Rattle.onprom_core.specs.Walk.{contained_step, width_step};
ghost use Rattle.project_language.specs.Sound.{IsSound};

use crate::Status;
use crate::halt::Halt;
use crate::lines::{line_of, width_refused};
use crate::output::{Output, Text};
use crate::querying::found;
use crate::reading::{project_read, refuse};
use crate::width::too_wide;
use answer_text::{containment_report, containment_text};
use model_lint::contained;
use outside::Shelf;
use perfect_rewriting::RewriteFault;
use project_language::Project;
use queries::Query;
use std::alloc::{AllocError, Global};

/// Reads the project, and tells whether the first query is contained in the second.
#[tactic(auto, unfolding(crate::specs::Walk::contained_step))]
pub(crate) fn contain<S: Shelf>(
    alloc: Global,
    shelf: &mut S,
    name: &str,
    first: &str,
    second: &str,
) -> Result<Output, Halt>
    ensures held { S.held shelf.new ≡ S.held shelf.old }
    ensures told { IfSome (S.held shelf.old) (λ files. Works result (contained_step files name.now first.now second.now)) }
    ensures well { IfOk result (EndsWell false) }
    ensures usage { IfErr result (λ h. SaysUsage h → ⊥) }
    ensures counts { CountsReading (S.faults shelf.old) (S.faults shelf.new)
        (S.absences shelf.old) (S.absences shelf.new) (S.failed shelf.new) result }
{
    let project = project_read(alloc, shelf, name)?;
    contain_from(alloc, &project, first, second)
}

// Finds both queries, and compares them.
#[tactic(auto, unfolding(crate::specs::Outputs::contained_rest))]
fn contain_from(alloc: Global, project: &Project, first: &str, second: &str) -> Result<Output, Halt>
    requires { IsSound project.now }
    ensures told { Works result (contained_rest first.now second.now project.now) }
    ensures well { IfOk result (EndsWell false) }
    ensures usage { IfErr result (λ h. SaysUsage h → ⊥) }
    ensures local { IfErr result IsLocal }
{
    let one = found(alloc, project, first)?;
    let other = found(alloc, project, second)?;
    alike(alloc, second, one, other)?;
    let output = containing(alloc, project, one, other)?;
    Ok(output)
}

// The heads of the queries have one length.
fn alike(alloc: Global, name: &str, first: &Query, second: &Query) -> Result<(), Halt>
    ensures told { Gives (λ done. second.now) result (width_step name.now first.now second.now) }
    ensures usage { IfErr result (λ h. SaysUsage h → ⊥) }
    ensures local { IfErr result IsLocal }
{
    if first.head.len() == second.head.len() {
        return Ok(());
    }
    refuse(width_refused(alloc, name)?)
}

fn containing(
    alloc: Global,
    project: &Project,
    first: &Query,
    second: &Query,
) -> Result<Output, AllocError>
    requires sound { IsSound project.now }
    requires first { IsAskable first.now }
    requires second { IsAskable second.now }
    ensures ends { IfOk result (λ o. EndsContainment project.now first.now second.now (ended o)) }
    ensures well { IfOk result (EndsWell false) }
{
    let tbox = project.tbox(alloc)?;
    match contained(alloc, &tbox, first, second) {
        Ok(place) => said(alloc, place),
        Err(RewriteFault::TooWide) => too_wide(alloc),
        Err(RewriteFault::NoMemory) => Err(AllocError),
    }
}

fn said(alloc: Global, place: Option<u32>) -> Result<Output, AllocError>
    ensures end { IfOk result (λ o. ended o ≡ done_with (containment_text place) (containment_report place)) }
    ensures well { IfOk result (EndsWell false) }
{
    let text = containment_text(alloc, place)?;
    let said = containment_report(alloc, place)?;
    let report = line_of(alloc, said.items())?;
    Ok(Output {
        status: Status::Done,
        text: Text::Bytes(text),
        report,
    })
}
