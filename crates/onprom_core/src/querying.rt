//! The commands that ask one query: `answer`, `why` and `rewrite`.
ghost use Rattle.std.specs.Prelude.{◌≡◌, false, IfSome, IfOk, IfErr};
ghost use Rattle.annotation_language.specs.Askable.{IsAskable};
ghost use Rattle.onprom_core.specs.Causes.{CountsReading, IsLocal, SaysUsage};
ghost use Rattle.onprom_core.specs.Outputs.{EndsWell, Works, answer_behind, answer_rest, rewrite_rest, why_behind, why_rest};
ghost use Rattle.onprom_core.specs.Steps.{Gives};
ghost use Rattle.onprom_core.specs.Walk.{answer_step, query_step, rewrite_step, why_step};
ghost use Rattle.project_language.specs.Sound.{IsSound};

use crate::answering::answering;
use crate::explaining::explaining;
use crate::halt::Halt;
use crate::lines::query_refused;
use crate::output::Output;
use crate::reading::{project_read, refuse, tables_read};
use crate::rewriting::rewriting;
use outside::Shelf;
use project_language::Project;
use queries::Query;
use std::alloc::Global;

/// Reads the project and its tables, and answers the query of the name.
#[tactic(auto, unfolding(crate::specs::Walk::answer_step))]
pub(crate) fn answer<S: Shelf>(
    alloc: Global,
    shelf: &mut S,
    name: &str,
    query: &str,
) -> Result<Output, Halt>
    ensures held { S.held shelf.new ≡ S.held shelf.old }
    ensures told { IfSome (S.held shelf.old) (λ files. Works result (answer_step files name.now query.now)) }
    ensures well { IfOk result (EndsWell false) }
    ensures usage { IfErr result (λ h. SaysUsage h → ⊥) }
    ensures counts { CountsReading (S.faults shelf.old) (S.faults shelf.new)
        (S.absences shelf.old) (S.absences shelf.new) (S.failed shelf.new) result }
{
    let project = project_read(alloc, shelf, name)?;
    answer_from(alloc, shelf, &project, query)
}

// Finds the query of the name, and answers it.
#[tactic(auto, unfolding(crate::specs::Outputs::answer_rest))]
fn answer_from<S: Shelf>(
    alloc: Global,
    shelf: &mut S,
    project: &Project,
    name: &str,
) -> Result<Output, Halt>
    requires { IsSound project.now }
    ensures held { S.held shelf.new ≡ S.held shelf.old }
    ensures told { IfSome (S.held shelf.old) (λ files. Works result (answer_rest files name.now project.now)) }
    ensures well { IfOk result (EndsWell false) }
    ensures usage { IfErr result (λ h. SaysUsage h → ⊥) }
    ensures counts { CountsReading (S.faults shelf.old) (S.faults shelf.new)
        (S.absences shelf.old) (S.absences shelf.new) (S.failed shelf.new) result }
{
    let query = found(alloc, project, name)?;
    answer_by(alloc, shelf, project, query)
}

// Reads the tables of the project, and answers the query.
#[tactic(auto, unfolding(crate::specs::Outputs::answer_behind))]
fn answer_by<S: Shelf>(
    alloc: Global,
    shelf: &mut S,
    project: &Project,
    query: &Query,
) -> Result<Output, Halt>
    requires sound { IsSound project.now }
    requires askable { IsAskable query.now }
    ensures held { S.held shelf.new ≡ S.held shelf.old }
    ensures told { IfSome (S.held shelf.old) (λ files. Works result (answer_behind files project.now query.now)) }
    ensures well { IfOk result (EndsWell false) }
    ensures usage { IfErr result (λ h. SaysUsage h → ⊥) }
    ensures counts { CountsReading (S.faults shelf.old) (S.faults shelf.new)
        (S.absences shelf.old) (S.absences shelf.new) (S.failed shelf.new) result }
{
    let tables = tables_read(alloc, shelf, project.sources.tables())?;
    let output = answering(alloc, project, tables.items(), query)?;
    Ok(output)
}

/// Reads the project and its tables, and explains the answer of the number to the query of the name.
#[tactic(auto, unfolding(crate::specs::Walk::why_step))]
pub(crate) fn explain<S: Shelf>(
    alloc: Global,
    shelf: &mut S,
    name: &str,
    query: &str,
    number: u32,
) -> Result<Output, Halt>
    ensures held { S.held shelf.new ≡ S.held shelf.old }
    ensures told { IfSome (S.held shelf.old) (λ files. Works result (why_step files name.now query.now number)) }
    ensures well { IfOk result (EndsWell false) }
    ensures usage { IfErr result (λ h. SaysUsage h → ⊥) }
    ensures counts { CountsReading (S.faults shelf.old) (S.faults shelf.new)
        (S.absences shelf.old) (S.absences shelf.new) (S.failed shelf.new) result }
{
    let project = project_read(alloc, shelf, name)?;
    explain_from(alloc, shelf, &project, query, number)
}

// Finds the query of the name, and explains its answer of the number.
#[tactic(auto, unfolding(crate::specs::Outputs::why_rest))]
fn explain_from<S: Shelf>(
    alloc: Global,
    shelf: &mut S,
    project: &Project,
    name: &str,
    number: u32,
) -> Result<Output, Halt>
    requires { IsSound project.now }
    ensures held { S.held shelf.new ≡ S.held shelf.old }
    ensures told { IfSome (S.held shelf.old) (λ files. Works result (why_rest files name.now number project.now)) }
    ensures well { IfOk result (EndsWell false) }
    ensures usage { IfErr result (λ h. SaysUsage h → ⊥) }
    ensures counts { CountsReading (S.faults shelf.old) (S.faults shelf.new)
        (S.absences shelf.old) (S.absences shelf.new) (S.failed shelf.new) result }
{
    let query = found(alloc, project, name)?;
    explain_by(alloc, shelf, project, query, number)
}

// Reads the tables of the project, and explains the answer of the number to the query.
#[tactic(auto, unfolding(crate::specs::Outputs::why_behind))]
fn explain_by<S: Shelf>(
    alloc: Global,
    shelf: &mut S,
    project: &Project,
    query: &Query,
    number: u32,
) -> Result<Output, Halt>
    requires sound { IsSound project.now }
    requires askable { IsAskable query.now }
    ensures held { S.held shelf.new ≡ S.held shelf.old }
    ensures told { IfSome (S.held shelf.old) (λ files. Works result (why_behind files project.now query.now number)) }
    ensures well { IfOk result (EndsWell false) }
    ensures usage { IfErr result (λ h. SaysUsage h → ⊥) }
    ensures counts { CountsReading (S.faults shelf.old) (S.faults shelf.new)
        (S.absences shelf.old) (S.absences shelf.new) (S.failed shelf.new) result }
{
    let tables = tables_read(alloc, shelf, project.sources.tables())?;
    let output = explaining(alloc, project, tables.items(), query, number)?;
    Ok(output)
}

/// Reads the project, and prints the rewriting of the query of the name.
#[tactic(auto, unfolding(crate::specs::Walk::rewrite_step))]
pub(crate) fn rewrite<S: Shelf>(
    alloc: Global,
    shelf: &mut S,
    name: &str,
    query: &str,
) -> Result<Output, Halt>
    ensures held { S.held shelf.new ≡ S.held shelf.old }
    ensures told { IfSome (S.held shelf.old) (λ files. Works result (rewrite_step files name.now query.now)) }
    ensures well { IfOk result (EndsWell false) }
    ensures usage { IfErr result (λ h. SaysUsage h → ⊥) }
    ensures counts { CountsReading (S.faults shelf.old) (S.faults shelf.new)
        (S.absences shelf.old) (S.absences shelf.new) (S.failed shelf.new) result }
{
    let project = project_read(alloc, shelf, name)?;
    rewrite_from(alloc, &project, query)
}

// Finds the query of the name, and prints its rewriting.
#[tactic(auto, unfolding(crate::specs::Outputs::rewrite_rest))]
fn rewrite_from(alloc: Global, project: &Project, name: &str) -> Result<Output, Halt>
    requires { IsSound project.now }
    ensures told { Works result (rewrite_rest name.now project.now) }
    ensures well { IfOk result (EndsWell false) }
    ensures usage { IfErr result (λ h. SaysUsage h → ⊥) }
    ensures local { IfErr result IsLocal }
{
    let query = found(alloc, project, name)?;
    let output = rewriting(alloc, project, name, query)?;
    Ok(output)
}

/// The query that can be asked by the name.
pub(crate) fn found<'a>(alloc: Global, project: &'a Project, name: &str) -> Result<&'a Query, Halt>
    requires { IsSound project.now }
    ensures told { Gives (λ query. query.now) result (query_step project.now name.now) }
    ensures askable { IfOk result (λ query. IsAskable query.now) }
    ensures usage { IfErr result (λ h. SaysUsage h → ⊥) }
    ensures local { IfErr result IsLocal }
{
    match project.noted.notes().query_named(name) {
        Some(query) => Ok(query),
        None => refuse(query_refused(alloc, name)?),
    }
}
