//! The job of `answer`.
ghost use Rattle.std.specs.Prelude.{◌≡◌, false, IfOk};
ghost use Rattle.answer_text.specs.Answers.{answers_report, answers_text};
ghost use Rattle.annotation_language.specs.Askable.{IsAskable};
ghost use Rattle.onprom_core.specs.Jobs.{EndsAnswering};
ghost use Rattle.onprom_core.specs.Outputs.{EndsWell, ended};
ghost use Rattle.onprom_core.specs.Rewritten.{done_with};
ghost use Rattle.project_language.specs.Sound.{IsSound};

use crate::Status;
use crate::lines::line_of;
use crate::output::{Output, Text};
use crate::specifying::specification;
use crate::width::too_wide;
use answer_text::{answers_report, answers_text};
use certain_answers::answers;
use perfect_rewriting::RewriteFault;
use project_language::Project;
use queries::Query;
use source_tables::Table;
use std::alloc::{AllocError, Global};
use vocabulary::{List, Term};

/// The certain answers of a query over the tables of a project, which may contradict it.
pub(crate) fn answering(
    alloc: Global,
    project: &Project,
    tables: &[Table],
    query: &Query,
) -> Result<Output, AllocError>
    requires sound { IsSound project.now }
    requires askable { IsAskable query.now }
    ensures ends { IfOk result (λ o. EndsAnswering project.now tables.now query.now (ended o)) }
    ensures well { IfOk result (EndsWell false) }
{
    let tbox = project.tbox(alloc)?;
    let specification = specification(alloc, &tbox, project)?;
    match answers(alloc, &specification, tables, query) {
        Ok(found) => answered(alloc, found.tuples.items()),
        Err(RewriteFault::TooWide) => too_wide(alloc),
        Err(RewriteFault::NoMemory) => Err(AllocError),
    }
}

fn answered(alloc: Global, tuples: &[List<Term>]) -> Result<Output, AllocError>
    ensures end { IfOk result (λ o. ended o ≡ done_with (answers_text tuples.now) (answers_report tuples.now)) }
    ensures well { IfOk result (EndsWell false) }
{
    let text = answers_text(alloc, tuples)?;
    let said = answers_report(alloc, tuples)?;
    let report = line_of(alloc, said.items())?;
    Ok(Output {
        status: Status::Done,
        text: Text::Bytes(text),
        report,
    })
}
