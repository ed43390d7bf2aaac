//! Tuples of tables in another order, read in the order of the query.
ghost use Rattle.std.specs.Prelude.{◌≡◌, get_or, map, IfOk};
ghost use Rattle.table_renumbering.specs.Renumbering.{picked};

use std::alloc::{AllocError, Global};
use vocabulary::List;

fn number_at(tuple: &[u32], place: u32) -> u32
    ensures { result ≡ get_or tuple.now place 0 }
{
    if (place as usize) < tuple.len() {
        tuple[place as usize]
    } else {
        0
    }
}

/// The row numbers that stand at these places.
pub(crate) fn pick(alloc: Global, places: &[u32], tuple: &[u32]) -> Result<List<u32>, AllocError>
    ensures { IfOk result (λ l. l ≡ picked places.now tuple.now) }
{
    let mut picked = List::from_vec(Vec::with_capacity(alloc, places.len())?);
    for place in places {
        picked.push(number_at(tuple, *place))?;
    }
    Ok(picked)
}

/// The same for each of these tuples.
pub(crate) fn put_back(
    alloc: Global,
    places: &[u32],
    tuples: &[List<u32>],
) -> Result<List<List<u32>>, AllocError>
    ensures { IfOk result (λ l. l ≡ map (picked places.now) tuples.now) }
{
    let mut list = List::new(alloc);
    for tuple in tuples {
        list.push(pick(alloc, places, tuple.items())?)?;
    }
    Ok(list)
}
