//! The job of `rewrite`.
ghost use Rattle.std.specs.Prelude.{◌≡◌, false, [], IfOk, unwrap_or};
ghost use Rattle.answer_text.specs.Queries.{queries_report};
ghost use Rattle.annotation_language.specs.Askable.{IsAskable};
ghost use Rattle.annotation_language.specs.Named.{variables_named};
ghost use Rattle.onprom_core.specs.Jobs.{EndsRewriting, printed};
ghost use Rattle.onprom_core.specs.Outputs.{EndsWell, ended};
ghost use Rattle.onprom_core.specs.Rewritten.{PrintsKept, done_with};
ghost use Rattle.project_language.specs.Sound.{IsSound};

use crate::Status;
use crate::lines::line_of;
use crate::model_names::{class_names, link_names};
use crate::output::{Output, Text};
use crate::width::too_wide;
use answer_text::{QueryNames, queries_report, queries_text};
use perfect_rewriting::{RewriteFault, rewrite};
use project_language::Project;
use queries::Query;
use query_subsumption::drop_subsumed;
use std::alloc::{AllocError, Global};
use vocabulary::{List, Name};

/// The rewriting of the query of this name, without the queries for which others stand.
pub(crate) fn rewriting(
    alloc: Global,
    project: &Project,
    name: &str,
    query: &Query,
) -> Result<Output, AllocError>
    requires sound { IsSound project.now }
    requires askable { IsAskable query.now }
    ensures ends { IfOk result (λ o. EndsRewriting project.now name.now query.now (ended o)) }
    ensures well { IfOk result (EndsWell false) }
{
    let tbox = project.tbox(alloc)?;
    match rewrite(alloc, &tbox, query) {
        Ok(members) => rewritten(alloc, project, name, members),
        Err(RewriteFault::TooWide) => too_wide(alloc),
        Err(RewriteFault::NoMemory) => Err(AllocError),
    }
}

fn rewritten(
    alloc: Global,
    project: &Project,
    name: &str,
    members: List<Query>,
) -> Result<Output, AllocError>
    ensures prints { IfOk result (λ o. PrintsKept project.now name.now members (ended o)) }
    ensures well { IfOk result (EndsWell false) }
{
    let kept = drop_subsumed(alloc, members)?;
    listed(alloc, project, name, kept.items())
}

fn listed(
    alloc: Global,
    project: &Project,
    name: &str,
    kept: &[Query],
) -> Result<Output, AllocError>
    ensures end { IfOk result (λ o. ended o ≡ done_with (printed project.now name.now kept.now) (queries_report kept.now)) }
    ensures well { IfOk result (EndsWell false) }
{
    let text = printed(alloc, project, name, kept)?;
    let said = queries_report(alloc, kept)?;
    let report = line_of(alloc, said.items())?;
    Ok(Output {
        status: Status::Done,
        text: Text::Bytes(text),
        report,
    })
}

fn printed(
    alloc: Global,
    project: &Project,
    name: &str,
    kept: &[Query],
) -> Result<List<u8>, AllocError>
    ensures { IfOk result (λ text. text ≡ printed project.now name.now kept.now) }
{
    let classes = class_names(alloc, &project.model)?;
    let links = link_names(alloc, &project.model)?;
    let names = QueryNames {
        variables: variables(project, name),
        classes: classes.items(),
        links: links.items(),
    };
    queries_text(alloc, &names, kept)
}

// The variables of the query of this name, none where it has no names for them.
fn variables<'a>(project: &'a Project, name: &str) -> &'a [Name]
    ensures { result.now ≡ unwrap_or (variables_named project.now.noted.variables name.now) [] }
{
    match project.noted.variables(name) {
        Some(variables) => variables,
        None => &[],
    }
}
