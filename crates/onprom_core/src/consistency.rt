//! What the tables of a project contradict.
ghost use Rattle.std.specs.Prelude.{◌≡◌, ◌<◌, ◌≤◌, ◌-◌, ◌^◌, length, All, IfOk, OnOk};
ghost use Rattle.onprom_core.specs.Meaning.{AreContradictions, IsReadBack, spelled, tbox as tbox_of};
ghost use Rattle.project_language.specs.Sound.{IsSound};

use conflict_checker::Derivation;
use consistency_check::conflicts;
use derivation_text::laws::accepted_is_well_formed;
use derivation_text::write;
use dllite_axioms::Tbox;
use project_language::Project;
use source_tables::Table;
use std::alloc::{AllocError, Global};
use vocabulary::{List, Name};

/// One accepted derivation for each constraint that is contradicted, and for no other.
pub(crate) fn contradictions(
    alloc: Global,
    tbox: &Tbox,
    project: &Project,
    tables: &[Table],
) -> Result<List<Derivation>, AllocError>
    requires sound { IsSound project.now }
    requires axioms { tbox.now ≡ tbox_of project.now }
    ensures { IfOk result (AreContradictions project.now tables.now) }
{
    conflicts(
        alloc,
        tbox,
        project.model.classes(),
        project.model.links(),
        project.sources.mappings(),
        tables,
    )
}

// No table has more rows than one may have.
fn have_few_rows(tables: &[Table])
    ensures { All (λ t. length t.rows ≤ 1_000_000) tables.now }
{
    for table in tables {
        let _ = table.rows();
    }
}

/// The text of contradictions.
pub(crate) fn spelled(
    alloc: Global,
    project: &Project,
    tables: &[Table],
    found: &[Derivation],
) -> Result<Name, AllocError>
    requires sound { IsSound project.now }
    requires contradictions { AreContradictions project.now tables.now found.now }
    requires some { 1 ≤ length found.now }
    ensures text { IfOk result (λ text. text ≡ spelled project.now found.now) }
    ensures read_back { OnOk result (IsReadBack project.now found.now) }
{
    have_few_rows(tables);
    accepted_is_well_formed();
    let text = write(alloc, found, project.sources.mappings())?;
    // a text is UTF-8
    let _ = text.text();
    Ok(text)
}
