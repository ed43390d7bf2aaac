//! All ways to give each atom of a query a target.
ghost use Rattle.std.specs.Prelude.{◌≡◌, ◌+◌, ◌<◌, Some, drop, get_or, length, slice_get, OnOk};
ghost use Rattle.mapping_unfolding.specs.Drafts.{HasAll, HasMapping, HasTarget, IsReady, Kept, OnlyUnfold, no_atom};
ghost use Rattle.mapping_unfolding.specs.Unfoldings.{Names};

use crate::draft::{Draft, Origin};
use crate::source::add;
use mapping_facts::{Mapping, Target};
use queries::Atom;
use std::alloc::{AllocError, Global};

// Adds the drafts in which the next atom has this target.
#[cycle(extend)]
fn extend_by_target(
    alloc: Global,
    mappings: &[Mapping],
    atoms: &[Atom],
    draft: &Draft,
    origin: Origin,
    mapping: &Mapping,
    target: &Target,
    out: &mut Vec<Draft>,
) -> Result<(), AllocError>
    requires ready { IsReady mappings.now atoms.now draft.now }
    requires place { length draft.now.origins < length atoms.now }
    requires names { Names mappings.now origin mapping.now target.now }
    requires first { origin.first ≡ length draft.now.query.tables }
    ensures kept { OnOk result (Kept out.old.items out.new.items) }
    ensures only { OnOk result (OnlyUnfold mappings.now (drop (length draft.now.origins) atoms.now) draft.now out.old.items out.new.items) }
    ensures all { OnOk result (HasTarget mappings.now (get_or atoms.now (length draft.now.origins) no_atom) (drop (length draft.now.origins + 1) atoms.now) draft.now mapping.now.query out.new.items target.now) }
{
    let atom = &atoms[draft.origins.len()];
    match add(alloc, draft, atom, origin, &mapping.query, target)? {
        Some(next) => extend(alloc, mappings, atoms, &next, out),
        None => Ok(()),
    }
}

// Adds the drafts in which the next atom has a target of this mapping.
#[cycle(extend)]
fn extend_by_mapping(
    alloc: Global,
    mappings: &[Mapping],
    atoms: &[Atom],
    draft: &Draft,
    number: u32,
    mapping: &Mapping,
    out: &mut Vec<Draft>,
) -> Result<(), AllocError>
    requires ready { IsReady mappings.now atoms.now draft.now }
    requires place { length draft.now.origins < length atoms.now }
    requires names { slice_get mappings.now number ≡ Some mapping.now }
    ensures kept { OnOk result (Kept out.old.items out.new.items) }
    ensures only { OnOk result (OnlyUnfold mappings.now (drop (length draft.now.origins) atoms.now) draft.now out.old.items out.new.items) }
    ensures all { OnOk result (HasMapping mappings.now (get_or atoms.now (length draft.now.origins) no_atom) (drop (length draft.now.origins + 1) atoms.now) draft.now out.new.items mapping.now) }
{
    let first = draft.query.tables.len() as u32;
    let targets = mapping.targets.items();
    for i in 0..targets.len() {
        let origin = Origin {
            mapping: number,
            target: i as u32,
            first,
        };
        extend_by_target(
            alloc,
            mappings,
            atoms,
            draft,
            origin,
            mapping,
            &targets[i],
            out,
        )?;
    }
    Ok(())
}

/// Adds the drafts that begin with this one, and have a target for each atom.
#[cycle(extend)]
pub fn extend(
    alloc: Global,
    mappings: &[Mapping],
    atoms: &[Atom],
    draft: &Draft,
    out: &mut Vec<Draft>,
) -> Result<(), AllocError>
    requires ready { IsReady mappings.now atoms.now draft.now }
    ensures kept { OnOk result (Kept out.old.items out.new.items) }
    ensures only { OnOk result (OnlyUnfold mappings.now (drop (length draft.now.origins) atoms.now) draft.now out.old.items out.new.items) }
    ensures all { OnOk result (HasAll mappings.now (drop (length draft.now.origins) atoms.now) draft.now out.new.items) }
{
    if draft.origins.len() == atoms.len() {
        out.push(draft.copy(alloc)?)?;
        return Ok(());
    }
    for i in 0..mappings.len() {
        extend_by_mapping(alloc, mappings, atoms, draft, i as u32, &mappings[i], out)?;
    }
    Ok(())
}
