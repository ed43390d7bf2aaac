//! The commands: reading what they need, and doing their jobs.
ghost use Rattle.std.specs.Prelude.{◌≡◌, false, true, IfSome, IfOk, IfErr, IsErr};
ghost use Rattle.onprom_core.specs.Causes.{CountsReading, SaysUsage, SaysUsageAtMost};
ghost use Rattle.onprom_core.specs.Commands.{is_answer, is_check, is_contained, is_extract, is_lint, is_make, is_rewrite, is_verify};
ghost use Rattle.onprom_core.specs.Outputs.{EndsWell, ReadsNothing, Works, check_rest, extract_rest, verify_behind, verify_rest};
ghost use Rattle.onprom_core.specs.Walk.{IsNoCommand, check_step, extract_step, verify_step, walk};
ghost use Rattle.project_language.specs.Sound.{IsSound};

use crate::Status;
use crate::checking::checking;
use crate::containing::contain;
use crate::extraction::extraction;
use crate::halt::{Halt, Stopped};
use crate::lines::usage_line;
use crate::linting::lint;
use crate::making::making;
use crate::naming::{docs_named, number_named};
use crate::output::Output;
use crate::querying::{answer, explain, rewrite};
use crate::reading::{completed, project_read, read_named, spelled_in, tables_read};
use crate::verifying::verifying;
use outside::{Shelf, Words};
use project_language::Project;
use source_tables::Table;
use std::alloc::Global;

/// Reads up to the job, and does it.
pub(crate) fn work<S: Shelf>(alloc: Global, words: &Words, shelf: &mut S) -> Result<Output, Halt>
    ensures held { S.held shelf.new ≡ S.held shelf.old }
    ensures told { IfSome (S.held shelf.old) (λ files. Works result (walk words.now files)) }
    ensures well { IfOk result (EndsWell (is_check words.now)) }
    ensures usage { IfErr result (λ h. SaysUsage h → IsNoCommand words.now) }
    ensures no_command { IsNoCommand words.now → IfErr result SaysUsageAtMost × IsErr result }
    ensures counts { CountsReading (S.faults shelf.old) (S.faults shelf.new)
        (S.absences shelf.old) (S.absences shelf.new) (S.failed shelf.new) result }
    ensures made { is_make words.now ≡ true → ReadsNothing words.now result }
    ensures unused { is_make words.now ≡ true → shelf.new ≡ shelf.old }
{
    if is_extract(words) {
        return extract(alloc, shelf, words.get(1));
    }
    if is_check(words) {
        return check(alloc, shelf, words.get(1));
    }
    if is_verify(words) {
        return verify(alloc, shelf, words.get(1), words.get(2));
    }
    if is_answer(words) {
        return answer(alloc, shelf, words.get(1), words.get(2));
    }
    if is_rewrite(words) {
        return rewrite(alloc, shelf, words.get(1), words.get(2));
    }
    if is_lint(words) {
        return lint(alloc, shelf, words.get(1));
    }
    if is_contained(words) {
        return contain(alloc, shelf, words.get(1), words.get(2), words.get(3));
    }
    if let Some(number) = number_named(words) {
        return explain(alloc, shelf, words.get(1), words.get(2), number);
    }
    if let Some(docs) = docs_named(words) {
        return Ok(making(alloc, docs, words.get(2))?);
    }
    Err(Halt::Stopped(Stopped {
        status: Status::Usage,
        line: usage_line(alloc)?,
    }))
}

fn is_extract(words: &Words) -> bool
    ensures { result ≡ is_extract words.now }
{
    words.len() == 2 && words.get(0) == "extract"
}

fn is_check(words: &Words) -> bool
    ensures { result ≡ is_check words.now }
{
    words.len() == 2 && words.get(0) == "check"
}

fn is_verify(words: &Words) -> bool
    ensures { result ≡ is_verify words.now }
{
    words.len() == 3 && words.get(0) == "verify"
}

fn is_answer(words: &Words) -> bool
    ensures { result ≡ is_answer words.now }
{
    words.len() == 3 && words.get(0) == "answer"
}

fn is_rewrite(words: &Words) -> bool
    ensures { result ≡ is_rewrite words.now }
{
    words.len() == 3 && words.get(0) == "rewrite"
}

fn is_lint(words: &Words) -> bool
    ensures { result ≡ is_lint words.now }
{
    words.len() == 2 && words.get(0) == "lint"
}

fn is_contained(words: &Words) -> bool
    ensures { result ≡ is_contained words.now }
{
    words.len() == 4 && words.get(0) == "contained"
}

// Reads the project and its tables, and makes the log.
#[tactic(auto, unfolding(crate::specs::Walk::extract_step))]
pub(crate) fn extract<S: Shelf>(alloc: Global, shelf: &mut S, name: &str) -> Result<Output, Halt>
    ensures held { S.held shelf.new ≡ S.held shelf.old }
    ensures told { IfSome (S.held shelf.old) (λ files. Works result (extract_step files name.now)) }
    ensures well { IfOk result (EndsWell false) }
    ensures usage { IfErr result (λ h. SaysUsage h → ⊥) }
    ensures counts { CountsReading (S.faults shelf.old) (S.faults shelf.new)
        (S.absences shelf.old) (S.absences shelf.new) (S.failed shelf.new) result }
{
    let project = project_read(alloc, shelf, name)?;
    extract_from(alloc, shelf, name, &project)
}

// Reads the tables of the project, and makes the log.
#[tactic(auto, unfolding(crate::specs::Outputs::extract_rest))]
fn extract_from<S: Shelf>(
    alloc: Global,
    shelf: &mut S,
    name: &str,
    project: &Project,
) -> Result<Output, Halt>
    requires { IsSound project.now }
    ensures held { S.held shelf.new ≡ S.held shelf.old }
    ensures told { IfSome (S.held shelf.old) (λ files. Works result (extract_rest files name.now project.now)) }
    ensures well { IfOk result (EndsWell false) }
    ensures usage { IfErr result (λ h. SaysUsage h → ⊥) }
    ensures counts { CountsReading (S.faults shelf.old) (S.faults shelf.new)
        (S.absences shelf.old) (S.absences shelf.new) (S.failed shelf.new) result }
{
    completed(alloc, name, project)?;
    let tables = tables_read(alloc, shelf, project.sources.tables())?;
    let output = extraction(alloc, project, tables.items())?;
    Ok(output)
}

// Reads the project and its tables, and tells what contradicts it.
#[tactic(auto, unfolding(crate::specs::Walk::check_step))]
fn check<S: Shelf>(alloc: Global, shelf: &mut S, name: &str) -> Result<Output, Halt>
    ensures held { S.held shelf.new ≡ S.held shelf.old }
    ensures told { IfSome (S.held shelf.old) (λ files. Works result (check_step files name.now)) }
    ensures well { IfOk result (EndsWell true) }
    ensures usage { IfErr result (λ h. SaysUsage h → ⊥) }
    ensures counts { CountsReading (S.faults shelf.old) (S.faults shelf.new)
        (S.absences shelf.old) (S.absences shelf.new) (S.failed shelf.new) result }
{
    let project = project_read(alloc, shelf, name)?;
    check_from(alloc, shelf, &project)
}

// Reads the tables of the project, and tells what contradicts it.
#[tactic(auto, unfolding(crate::specs::Outputs::check_rest))]
fn check_from<S: Shelf>(alloc: Global, shelf: &mut S, project: &Project) -> Result<Output, Halt>
    requires { IsSound project.now }
    ensures held { S.held shelf.new ≡ S.held shelf.old }
    ensures told { IfSome (S.held shelf.old) (λ files. Works result (check_rest files project.now)) }
    ensures well { IfOk result (EndsWell true) }
    ensures usage { IfErr result (λ h. SaysUsage h → ⊥) }
    ensures counts { CountsReading (S.faults shelf.old) (S.faults shelf.new)
        (S.absences shelf.old) (S.absences shelf.new) (S.failed shelf.new) result }
{
    let tables = tables_read(alloc, shelf, project.sources.tables())?;
    let output = checking(alloc, project, tables.items())?;
    Ok(output)
}

// Reads the project, its tables and derivations, and judges these.
#[tactic(auto, unfolding(crate::specs::Walk::verify_step))]
fn verify<S: Shelf>(
    alloc: Global,
    shelf: &mut S,
    name: &str,
    derivations: &str,
) -> Result<Output, Halt>
    ensures held { S.held shelf.new ≡ S.held shelf.old }
    ensures told { IfSome (S.held shelf.old) (λ files. Works result (verify_step files name.now derivations.now)) }
    ensures well { IfOk result (EndsWell false) }
    ensures usage { IfErr result (λ h. SaysUsage h → ⊥) }
    ensures counts { CountsReading (S.faults shelf.old) (S.faults shelf.new)
        (S.absences shelf.old) (S.absences shelf.new) (S.failed shelf.new) result }
{
    let project = project_read(alloc, shelf, name)?;
    verify_from(alloc, shelf, &project, derivations)
}

// Reads the tables of the project and derivations, and judges these.
#[tactic(auto, unfolding(crate::specs::Outputs::verify_rest))]
fn verify_from<S: Shelf>(
    alloc: Global,
    shelf: &mut S,
    project: &Project,
    derivations: &str,
) -> Result<Output, Halt>
    requires { IsSound project.now }
    ensures held { S.held shelf.new ≡ S.held shelf.old }
    ensures told { IfSome (S.held shelf.old) (λ files. Works result (verify_rest files derivations.now project.now)) }
    ensures well { IfOk result (EndsWell false) }
    ensures usage { IfErr result (λ h. SaysUsage h → ⊥) }
    ensures counts { CountsReading (S.faults shelf.old) (S.faults shelf.new)
        (S.absences shelf.old) (S.absences shelf.new) (S.failed shelf.new) result }
{
    let tables = tables_read(alloc, shelf, project.sources.tables())?;
    verify_by(alloc, shelf, project, tables.items(), derivations)
}

// Reads derivations, and judges them.
#[tactic(auto, unfolding(crate::specs::Outputs::verify_behind))]
fn verify_by<S: Shelf>(
    alloc: Global,
    shelf: &mut S,
    project: &Project,
    tables: &[Table],
    derivations: &str,
) -> Result<Output, Halt>
    requires { IsSound project.now }
    ensures held { S.held shelf.new ≡ S.held shelf.old }
    ensures told { IfSome (S.held shelf.old) (λ files. Works result (verify_behind files derivations.now project.now tables.now)) }
    ensures well { IfOk result (EndsWell false) }
    ensures usage { IfErr result (λ h. SaysUsage h → ⊥) }
    ensures counts { CountsReading (S.faults shelf.old) (S.faults shelf.new)
        (S.absences shelf.old) (S.absences shelf.new) (S.failed shelf.new) result }
{
    let bytes = read_named(alloc, shelf, derivations)?;
    let read = spelled_in(alloc, project, derivations, bytes.slice())?;
    let output = verifying(alloc, project, tables, read.items())?;
    Ok(output)
}
