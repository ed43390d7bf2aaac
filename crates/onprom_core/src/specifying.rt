//! A project's axioms and mappings, ready to be asked.
ghost use Rattle.std.specs.Prelude.{◌≡◌, IfOk};
ghost use Rattle.onprom_core.specs.Meaning.{specified, tbox as tbox_of};
ghost use Rattle.project_language.specs.Sound.{IsSound};

use certain_answers::Specification;
use dllite_axioms::Tbox;
use project_language::Project;
use std::alloc::{AllocError, Global};

/// Made once for all queries of a run.
pub(crate) fn specification(
    alloc: Global,
    tbox: &Tbox,
    project: &Project,
) -> Result<Specification, AllocError>
    requires sound { IsSound project.now }
    requires axioms { tbox.now ≡ tbox_of project.now }
    ensures { IfOk result (λ s. s ≡ specified project.now) }
{
    Specification::of(
        alloc,
        tbox,
        project.model.classes(),
        project.model.links(),
        project.sources.mappings(),
    )
}
