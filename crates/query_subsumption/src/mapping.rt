//! Mapping one query into another.
ghost use Rattle.std.specs.Prelude.{◌↔◌, IfNone, IfOk, IfSome, IsTrue};
ghost use Rattle.query_subsumption.specs.Images.{AreImages};
ghost use Rattle.query_subsumption.specs.Subsumption.{MapsInto};

use crate::numbering::Numbered;
use crate::search::{find, images};
use crate::symbols::may_map;
use queries::{Arg, Query};
use std::alloc::{AllocError, Global};
use vocabulary::List;

/// A replacement that takes the head of `general` to that of `special`, and each atom to an atom,
/// where each Blank is read as a variable of its own. It is given by its images: those of the
/// variables by number, then those of the Blanks as they stand, the head before the atoms.
pub fn maps_into(
    alloc: Global,
    general: &Query,
    special: &Query,
) -> Result<Option<List<Arg>>, AllocError>
    ensures none { IfOk result (λ found. IfNone found (MapsInto general.now special.now → ⊥)) }
    ensures some { IfOk result (λ found. IfSome found (AreImages general.now special.now)) }
{
    if !may_map(general, special) {
        return Ok(None);
    }
    search_images(alloc, general, special)
}

fn search_images(
    alloc: Global,
    general: &Query,
    special: &Query,
) -> Result<Option<List<Arg>>, AllocError>
    ensures none { IfOk result (λ found. IfNone found (MapsInto general.now special.now → ⊥)) }
    ensures some { IfOk result (λ found. IfSome found (AreImages general.now special.now)) }
{
    let from = Numbered::of(alloc, general)?;
    let to = Numbered::of(alloc, special)?;
    let Some(found) = find(alloc, &from, &to)? else {
        return Ok(None);
    };
    let told = images(alloc, found.as_slice(), from.end, to.blanks_from)?;
    Ok(Some(List::from_vec(told)))
}
