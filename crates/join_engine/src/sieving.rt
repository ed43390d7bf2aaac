//! The rows of one table that its own conditions leave, found in one pass over them.
ghost use Rattle.std.specs.Prelude.{◌≡◌, ◌∷◌, [], ◌++◌, if◌then◌else◌, length, IfOk, OnOk};
ghost use Rattle.std.specs.List.{list_any};
ghost use Rattle.join_engine.specs.Sieves.{IsSieved, fails_alone, is_alone};

use mapping_facts::{Condition, SourceQuery, holds};
use source_tables::Table;
use std::alloc::{AllocError, Global};
use vocabulary::List;

// Whether a condition speaks of this table alone.
fn is_alone(condition: &Condition, depth: usize) -> bool
    ensures { result ≡ is_alone depth condition.now }
{
    match condition {
        Condition::Equal(p, q) | Condition::Differ(p, q) => {
            p.table as usize == depth && q.table as usize == depth
        }
        Condition::EqualText(p, _) | Condition::DifferText(p, _) => p.table as usize == depth,
        Condition::IsNull(p) | Condition::NotNull(p) => p.table as usize == depth,
    }
}

/// Whether some condition speaks of this table alone.
pub(crate) fn has_own(query: &SourceQuery, depth: usize) -> bool
    ensures { result ≡ list_any (is_alone depth) query.now.conditions }
{
    query
        .conditions
        .items()
        .iter()
        .any(|condition| is_alone(condition, depth))
}

// Whether a condition of this table alone fails over these rows.
fn fails_alone(query: &SourceQuery, tables: &[Table], depth: usize, rows: &[u32]) -> bool
    ensures { result ≡ fails_alone tables.now query.now depth rows.now }
{
    query
        .conditions
        .items()
        .iter()
        .any(|c| is_alone(c, depth) && !holds(c, query, tables, rows))
}

// Adds a row, if no condition of its table alone fails over it.
fn add_sieved(
    query: &SourceQuery,
    tables: &[Table],
    depth: usize,
    probe: &mut Vec<u32>,
    row: u32,
    kept: &mut List<u32>,
) -> Result<(), AllocError>
    requires { length probe.old.items ≡ depth }
    ensures probe { OnOk result (probe.new.items ≡ probe.old.items) }
    ensures kept { OnOk result (kept.new ≡ (if fails_alone tables.now query.now depth (probe.old.items ++ row ∷ []) then kept.old else kept.old ++ row ∷ [])) }
{
    probe.push(row)?;
    if !fails_alone(query, tables, depth, probe.as_slice()) {
        kept.push(row)?;
    }
    probe.truncate(depth);
    Ok(())
}

// Any row numbers, for tables of which no condition is asked.
fn any_rows(alloc: Global, count: usize) -> Result<Vec<u32>, AllocError>
    ensures { IfOk result (λ v. length v.items ≡ count) }
{
    let mut rows = Vec::new(alloc);
    for _place in 0..count {
        rows.push(0)?;
    }
    Ok(rows)
}

/// The rows of a table, of which there are so many, that its own conditions leave.
pub(crate) fn sieve(
    alloc: Global,
    query: &SourceQuery,
    tables: &[Table],
    depth: usize,
    count: u32,
) -> Result<List<u32>, AllocError>
    ensures { IfOk result (IsSieved tables.now query.now depth count) }
{
    let mut probe = any_rows(alloc, depth)?;
    let mut kept = List::new(alloc);
    for row in 0..count {
        add_sieved(query, tables, depth, &mut probe, row, &mut kept)?;
    }
    Ok(kept)
}
