//! The job of `why`.
ghost use Rattle.std.specs.Prelude.{◌≡◌, false, List as ListOf, Some, IfOk};
ghost use Rattle.vocabulary.specs.Lists.{IsListOf};
ghost use Rattle.queries.specs.Order.{tuple_cmp};
ghost use Rattle.annotation_language.specs.Askable.{IsAskable};
ghost use Rattle.answer_text.specs.Answers.{why_report};
ghost use Rattle.onprom_core.specs.Explained.{EndsExplaining, ExplainsTuple};
ghost use Rattle.onprom_core.specs.Jobs.{EndsWhy, explained_end, unknown_end};
ghost use Rattle.onprom_core.specs.Meaning.{certain, explained, tbox as tbox_of};
ghost use Rattle.onprom_core.specs.Outputs.{EndsWell, ended};
ghost use Rattle.project_language.specs.Sound.{IsSound};

use crate::Status;
use crate::lines::{answer_refused, line_of};
use crate::output::{Output, Text};
use crate::specifying::specification;
use crate::width::too_wide;
use answer_text::why_report;
use certain_answers::answers;
use conflict_checker::item;
use derivation_text::explain;
use dllite_axioms::Tbox;
use perfect_rewriting::RewriteFault;
use project_language::Project;
use queries::Query;
use source_tables::Table;
use std::alloc::{AllocError, Global};
use vocabulary::{List, Term};
use why_answers::{Why, why};

/// Why the tuple of the number, counted from 1, is an answer of a query over the tables of a project.
pub(crate) fn explaining(
    alloc: Global,
    project: &Project,
    tables: &[Table],
    query: &Query,
    number: u32,
) -> Result<Output, AllocError>
    requires sound { IsSound project.now }
    requires askable { IsAskable query.now }
    ensures ends { IfOk result (λ o. EndsWhy project.now tables.now query.now number (ended o)) }
    ensures well { IfOk result (EndsWell false) }
{
    let tbox = project.tbox(alloc)?;
    let specification = specification(alloc, &tbox, project)?;
    match answers(alloc, &specification, tables, query) {
        Ok(found) => numbered(
            alloc,
            &tbox,
            project,
            tables,
            query,
            found.tuples.items(),
            number,
        ),
        Err(RewriteFault::TooWide) => too_wide(alloc),
        Err(RewriteFault::NoMemory) => Err(AllocError),
    }
}

// Explains the tuple of the number, or tells that there is none.
fn numbered(
    alloc: Global,
    tbox: &Tbox,
    project: &Project,
    tables: &[Table],
    query: &Query,
    tuples: &[List<Term>],
    number: u32,
) -> Result<Output, AllocError>
    requires sound { IsSound project.now }
    requires axioms { tbox.now ≡ tbox_of project.now }
    requires askable { IsAskable query.now }
    requires listed { IsListOf tuple_cmp (certain project.now tables.now query.now) tuples.now }
    ensures ends { IfOk result (λ o. EndsExplaining project.now tables.now query.now tuples.now number (ended o)) }
    ensures well { IfOk result (EndsWell false) }
{
    match item(tuples, number) {
        Some(tuple) => explained(alloc, tbox, project, tables, query, tuple.items()),
        None => unknown(alloc, number),
    }
}

fn unknown(alloc: Global, number: u32) -> Result<Output, AllocError>
    ensures end { IfOk result (λ o. ended o ≡ unknown_end number) }
    ensures well { IfOk result (EndsWell false) }
{
    let report = answer_refused(alloc, number)?;
    Ok(Output {
        status: Status::Refused,
        text: Text::none(alloc),
        report,
    })
}

fn explained(
    alloc: Global,
    tbox: &Tbox,
    project: &Project,
    tables: &[Table],
    query: &Query,
    tuple: &[Term],
) -> Result<Output, AllocError>
    requires sound { IsSound project.now }
    requires axioms { tbox.now ≡ tbox_of project.now }
    requires askable { IsAskable query.now }
    requires certain { certain project.now tables.now query.now tuple.now }
    ensures explains { IfOk result (λ o. ExplainsTuple project.now tables.now query.now tuple.now (ended o)) }
    ensures well { IfOk result (EndsWell false) }
{
    let model = &project.model;
    let mappings = project.sources.mappings();
    let found = why(
        alloc,
        tbox,
        model.classes(),
        model.links(),
        mappings,
        tables,
        query,
        tuple,
    )?;
    written(alloc, project, &found, tuple)
}

fn written(
    alloc: Global,
    project: &Project,
    found: &Why,
    tuple: &[Term],
) -> Result<Output, AllocError>
    ensures end { IfOk result (λ o. ended o ≡ explained_end project.now found.now tuple.now) }
    ensures well { IfOk result (EndsWell false) }
{
    let text = explain(
        alloc,
        found.steps.items(),
        found.atoms.items(),
        project.sources.mappings(),
    )?;
    let said = why_report(alloc, tuple)?;
    let report = line_of(alloc, said.items())?;
    Ok(Output {
        status: Status::Done,
        text: Text::Bytes(List::from_vec(Vec::from_slice(alloc, text.text().as_bytes())?)),
        report,
    })
}
