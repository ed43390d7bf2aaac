//! The job of `verify`.
ghost use Rattle.std.specs.Prelude.{◌≡◌, false, [], IfOk};
ghost use Rattle.conflict_checker.specs.Derivations.{IsAccepted};
ghost use Rattle.mapping_facts.specs.Fits.{AreFit};
ghost use Rattle.onprom_core.specs.Jobs.{EndsVerification};
ghost use Rattle.onprom_core.specs.Outputs.{EndsWell, TellsFirst, ended};
ghost use Rattle.project_language.specs.Sound.{IsSound};

use crate::Status;
use crate::lines::numbered_line;
use crate::output::{Output, Text};
use conflict_checker::{Derivation, accepts};
use dllite_axioms::Tbox;
use mapping_facts::Mapping;
use outside::Bytes;
use project_language::Project;
use source_tables::Table;
use std::alloc::{AllocError, Global};

/// Whether all of the derivations are accepted, or which is the first that is not.
pub(crate) fn verifying(
    alloc: Global,
    project: &Project,
    tables: &[Table],
    derivations: &[Derivation],
) -> Result<Output, AllocError>
    requires sound { IsSound project.now }
    ensures ends { IfOk result (λ o. EndsVerification project.now tables.now derivations.now (ended o)) }
    ensures well { IfOk result (EndsWell false) }
{
    let tbox = project.tbox(alloc)?;
    match first_refused(
        alloc,
        &tbox,
        project.sources.mappings(),
        tables,
        derivations,
    )? {
        None => {
            let report = numbered_line(alloc, b"accepted ", derivations.len() as u64)?;
            Ok(judged(alloc, Status::Done, report))
        }
        Some(number) => {
            let report = numbered_line(alloc, b"not accepted: ", number)?;
            Ok(judged(alloc, Status::NotAccepted, report))
        }
    }
}

fn judged(alloc: Global, status: Status, report: Bytes) -> Output
    ensures { ended result ≡ record { status = status; out = []; report = report } }
{
    Output {
        status,
        text: Text::none(alloc),
        report,
    }
}

// The number of the first derivation that is not accepted, counted from 1.
fn first_refused(
    alloc: Global,
    tbox: &Tbox,
    mappings: &[Mapping],
    tables: &[Table],
    derivations: &[Derivation],
) -> Result<Option<u64>, AllocError>
    requires { AreFit mappings.now }
    ensures { IfOk result (TellsFirst (λ d. IsAccepted tbox.now mappings.now tables.now d) derivations.now) }
{
    let mut number = 0;
    for derivation in derivations {
        number += 1;
        if !accepts(alloc, derivation, tbox, mappings, tables)? {
            return Ok(Some(number));
        }
    }
    Ok(None)
}
