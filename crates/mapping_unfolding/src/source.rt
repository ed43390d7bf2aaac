//! The tables and conditions of a mapping stand behind those of a draft.
ghost use Rattle.std.specs.Prelude.{◌≡◌, ◌+◌, ◌-◌, ◌^◌, ◌++◌, All, length, IfOk, IfSome, OnOk};
ghost use Rattle.mapping_facts.specs.Fits.{ConditionFits, TargetFits};
ghost use Rattle.mapping_unfolding.specs.Drafts.{Adds, AreWhole, beside as set_beside};

use crate::draft::{Draft, Origin};
use crate::put::put_atom;
use crate::shift::{push_conditions, push_defined};
use mapping_facts::{SourceQuery, Target};
use queries::Atom;
use std::alloc::{AllocError, Global};
use vocabulary::{List, TableId};

fn push_tables(out: &mut List<TableId>, tables: &[TableId]) -> Result<(), AllocError>
    ensures { OnOk result (out.new ≡ out.old ++ tables.now) }
{
    for table in tables {
        out.push(*table)?;
    }
    Ok(())
}

fn beside(
    alloc: Global,
    draft: &Draft,
    origin: Origin,
    query: &SourceQuery,
    target: &Target,
) -> Result<Draft, AllocError>
    requires first { origin.first ≡ length draft.now.query.tables }
    requires conditions { All (ConditionFits (2 ^ 32 - origin.first)) query.now.conditions }
    requires target { TargetFits (2 ^ 32 - origin.first) target.now }
    ensures { IfOk result (λ d. d ≡ set_beside origin query.now target.now draft.now) }
{
    let mut next = draft.copy(alloc)?;
    let first = origin.first;
    push_tables(&mut next.query.tables, query.tables.items())?;
    push_conditions(
        alloc,
        &mut next.query.conditions,
        first,
        query.conditions.items(),
    )?;
    push_defined(&mut next.query.conditions, first, target)?;
    next.origins.push(origin)?;
    Ok(next)
}

/// The draft in which an atom has this target; none where they do not agree.
pub fn add(
    alloc: Global,
    draft: &Draft,
    atom: &Atom,
    origin: Origin,
    query: &SourceQuery,
    target: &Target,
) -> Result<Option<Draft>, AllocError>
    requires first { origin.first ≡ length draft.now.query.tables }
    requires conditions { All (ConditionFits (2 ^ 32 - origin.first)) query.now.conditions }
    requires target { TargetFits (2 ^ 32 - origin.first) target.now }
    requires bound { AreWhole draft.now }
    ensures adds { IfOk result (λ o. Adds atom.now origin query.now target.now draft.now o) }
    ensures whole { IfOk result (λ o. IfSome o AreWhole) }
{
    let next = beside(alloc, draft, origin, query, target)?;
    put_atom(alloc, origin.first, atom, target, next)
}
