//! The end of a job whose query has too many rewritings.
ghost use Rattle.std.specs.Prelude.{◌≡◌, false, IfOk};
ghost use Rattle.onprom_core.specs.Jobs.{wide_end};
ghost use Rattle.onprom_core.specs.Outputs.{EndsWell, ended};

use crate::Status;
use crate::lines::line_of;
use crate::output::{Output, Text};
use std::alloc::{AllocError, Global};

/// The limit of rewritings is passed.
pub(crate) fn too_wide(alloc: Global) -> Result<Output, AllocError>
    ensures end { IfOk result (λ o. ended o ≡ wide_end) }
    ensures well { IfOk result (EndsWell false) }
{
    let report = line_of(alloc, b"limit: rewriting\n")?;
    Ok(Output {
        status: Status::Limit,
        text: Text::none(alloc),
        report,
    })
}
