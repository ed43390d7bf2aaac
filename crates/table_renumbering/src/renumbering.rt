//! A row query over the same tables at other places.
ghost use Rattle.std.specs.Prelude.{◌≡◌, ◌<◌, ℕ, get_or, length, IfOk};
ghost use Rattle.mapping_facts.specs.Fits.{RowQueryFits};
ghost use Rattle.table_renumbering.specs.Renumbering.{IsRenumbering, moved_query, picked_tables};
ghost use Rattle.table_renumbering.specs.Tuples.{LeadsBack, LeadsForth};

use crate::moving::{move_conditions, move_pairs, move_terms};
use mapping_facts::{RowQuery, SourceQuery};
use std::alloc::{AllocError, Global};
use vocabulary::{List, TableId};

fn pick_tables(
    alloc: Global,
    order: &[u32],
    tables: &[TableId],
) -> Result<List<TableId>, AllocError>
    requires { (m : ℕ) → m < length order.now → get_or order.now m 0 < length tables.now }
    ensures { IfOk result (λ l. l ≡ picked_tables order.now tables.now) }
{
    let mut picked = List::new(alloc);
    for number in order {
        picked.push(tables[*number as usize])?;
    }
    Ok(picked)
}

fn move_query(
    alloc: Global,
    query: &RowQuery,
    order: &[u32],
    places: &[u32],
) -> Result<RowQuery, AllocError>
    requires fits { RowQueryFits query.now }
    requires numbers { IsRenumbering query.now.query.tables order.now places.now }
    ensures { IfOk result (λ q. q ≡ moved_query order.now places.now query.now) }
{
    let tables = pick_tables(alloc, order, query.query.tables.items())?;
    let conditions = move_conditions(alloc, places, query.query.conditions.items())?;
    let apart = move_pairs(alloc, places, query.apart.items())?;
    let head = move_terms(alloc, places, query.head.items())?;
    let query = SourceQuery { tables, conditions };
    Ok(RowQuery { query, apart, head })
}

/// The row query whose tables are those at the places of `order`, where `places` says for each table of the
/// given one the place at which it stands then.
pub fn renumber(
    alloc: Global,
    query: &RowQuery,
    order: &[u32],
    places: &[u32],
) -> Result<RowQuery, AllocError>
    requires fits { RowQueryFits query.now }
    requires numbers { IsRenumbering query.now.query.tables order.now places.now }
    ensures exact { IfOk result (λ q. q ≡ moved_query order.now places.now query.now) }
    ensures fits { IfOk result RowQueryFits }
    ensures back { IfOk result (LeadsBack places.now query.now) }
    ensures forth { IfOk result (LeadsForth order.now places.now query.now) }
{
    let moved = move_query(alloc, query, order, places)?;
    Ok(moved)
}
