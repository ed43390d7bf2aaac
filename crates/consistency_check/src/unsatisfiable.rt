//! Row queries that no rows satisfy, told by their conditions and by keys. No row is looked at.
ghost use Rattle.std.specs.Prelude.{◌≡◌, ◌==◌, [], true, All, slice_get, IsTrue};
ghost use Rattle.std.specs.List.{list_any};
ghost use Rattle.std.specs.Option.{option_copied};
ghost use Rattle.std.specs.Str.{bytes_eq};
ghost use Rattle.source_tables.specs.Tables.{HasKeys};
ghost use Rattle.mapping_facts.specs.Fits.{AreFit, HaveTexts};
ghost use Rattle.mapping_facts.specs.RowQueries.{row_tuples};
ghost use Rattle.mapping_unfolding.specs.Unfoldings.{HasOrigins};
ghost use Rattle.fact_derivation.specs.Finding.{table_count};
ghost use Rattle.consistency_check.specs.Asking.{apart_query, source_query};
ghost use Rattle.consistency_check.specs.Unsatisfiable.{are_one_cell, are_one_fact, are_one_row, asks_two_fillers, contradicts, equates, excludes, first_place, is_key_equated, is_unsatisfiable, place_same, shared_table};

use mapping_facts::{Condition, Mapping, Place, SourceQuery};
use mapping_unfolding::{Origin, Unfolded};
use negative_closure::Source;
use source_tables::Table;
use vocabulary::{ColId, List};

// More conditions are not looked at two by two: a template may ask for a million.
const MOST: usize = 256;

fn place_same(p: Place, q: Place) -> bool
    ensures { result ≡ place_same p q }
{
    p.table == q.table && p.col.0 == q.col.0
}

fn equates(condition: &Condition, p: Place, q: Place) -> bool
    ensures { result ≡ equates p q condition.now }
{
    match condition {
        Condition::Equal(r, s) => {
            place_same(p, *r) && place_same(q, *s) || place_same(p, *s) && place_same(q, *r)
        }
        _ => false,
    }
}

fn are_equated(conditions: &[Condition], p: Place, q: Place) -> bool
    ensures { result ≡ list_any (equates p q) conditions.now }
{
    conditions.iter().any(|c| equates(c, p, q))
}

fn is_column_equated(conditions: &[Condition], m: u32, n: u32, col: ColId) -> bool
    ensures { result ≡ list_any (equates (record { table = m; col = col }) (record { table = n; col = col })) conditions.now }
{
    let first = Place { table: m, col };
    are_equated(conditions, first, Place { table: n, col })
}

fn is_key_equated(conditions: &[Condition], m: u32, n: u32, key: &[ColId]) -> bool
    ensures { result ≡ is_key_equated conditions.now m n key.now }
{
    key.iter()
        .all(|col| is_column_equated(conditions, m, n, *col))
}

fn some_key_equated(conditions: &[Condition], m: u32, n: u32, keys: &[List<ColId>]) -> bool
    ensures { result ≡ list_any (is_key_equated conditions.now m n) keys.now }
{
    keys.iter()
        .any(|key| is_key_equated(conditions, m, n, key.items()))
}

fn shared_table<'a>(query: &SourceQuery, tables: &'a [Table], m: u32, n: u32) -> Option<&'a Table>
    ensures { option_copied result ≡ shared_table tables.now (slice_get query.now.tables m) (slice_get query.now.tables n) }
{
    let numbers = query.tables.items();
    let first = numbers.get(m as usize)?;
    let second = numbers.get(n as usize)?;
    if first.0 == second.0 {
        tables.get(first.0 as usize)
    } else {
        None
    }
}

fn are_one_row(query: &SourceQuery, tables: &[Table], m: u32, n: u32) -> bool
    ensures { result ≡ are_one_row tables.now query.now m n }
{
    match shared_table(query, tables, m, n) {
        Some(table) => {
            some_key_equated(query.conditions.items(), m, n, table.decl().keys.items())
        }
        None => false,
    }
}

fn are_one_cell(query: &SourceQuery, tables: &[Table], p: Place, q: Place) -> bool
    ensures { result ≡ are_one_cell tables.now query.now p q }
{
    p.col.0 == q.col.0 && (p.table == q.table || are_one_row(query, tables, p.table, q.table))
}

fn same_text(a: &str, b: &str) -> bool
    ensures { result ≡ bytes_eq a.now b.now }
{
    a == b
}

fn excludes(one: &Condition, two: &Condition) -> bool
    ensures { result ≡ excludes one.now two.now }
{
    match (one, two) {
        (Condition::EqualText(_, s), Condition::EqualText(_, t)) => !same_text(s.text(), t.text()),
        (Condition::EqualText(_, s), Condition::DifferText(_, t)) => same_text(s.text(), t.text()),
        (Condition::IsNull(_), Condition::EqualText(_, _)) => true,
        (Condition::IsNull(_), Condition::DifferText(_, _)) => true,
        (Condition::IsNull(_), Condition::NotNull(_)) => true,
        _ => false,
    }
}

fn first_place(condition: &Condition) -> Place
    ensures { result ≡ first_place condition.now }
{
    match condition {
        Condition::Equal(p, _) | Condition::Differ(p, _) => *p,
        Condition::EqualText(p, _) | Condition::DifferText(p, _) => *p,
        Condition::IsNull(p) | Condition::NotNull(p) => *p,
    }
}

fn contradicts(query: &SourceQuery, tables: &[Table], one: &Condition, two: &Condition) -> bool
    ensures { result ≡ contradicts tables.now query.now one.now two.now }
{
    excludes(one, two) && are_one_cell(query, tables, first_place(one), first_place(two))
}

fn some_contradicts(query: &SourceQuery, tables: &[Table], one: &Condition) -> bool
    ensures { result ≡ list_any (contradicts tables.now query.now one.now) query.now.conditions }
{
    query
        .conditions
        .items()
        .iter()
        .any(|two| contradicts(query, tables, one, two))
}

// Whether two conditions say, of one row, what does not go together, as that its kind is `order`, and
// that it is `item`.
fn is_unsatisfiable(query: &SourceQuery, tables: &[Table]) -> bool
    ensures { IsTrue result → is_unsatisfiable tables.now query.now ≡ true }
{
    let conditions = query.conditions.items();
    conditions.len() <= MOST
        && conditions
            .iter()
            .any(|one| some_contradicts(query, tables, one))
}

fn asks_two_fillers(source: &Source) -> bool
    ensures { result ≡ asks_two_fillers source.now }
{
    match source {
        Source::TwoFillers(_, _) => true,
        _ => false,
    }
}

fn has_one_table(mappings: &[Mapping], mapping: u32) -> bool
    ensures { result ≡ (table_count (slice_get mappings.now mapping) == 1) }
{
    match mappings.get(mapping as usize) {
        Some(mapping) => mapping.query.tables.len() == 1,
        None => false,
    }
}

// Whether both facts are what one target says of one row.
fn are_one_fact(
    mappings: &[Mapping],
    query: &SourceQuery,
    tables: &[Table],
    origins: &[Origin],
) -> bool
    ensures { result ≡ are_one_fact mappings.now tables.now query.now origins.now }
{
    match origins {
        [one, two] => {
            one.mapping == two.mapping
                && one.target == two.target
                && has_one_table(mappings, one.mapping)
                && are_one_row(query, tables, one.first, two.first)
        }
        _ => false,
    }
}

/// Whether a row query of the source asks for no tuple, as far as that can be told without a row: two of its
/// conditions contradict each other, or what has to be two different fillers is one. Rows of a table that
/// the conditions set equal in a key are one.
pub(crate) fn is_vain(
    source: &Source,
    unfolded: &Unfolded,
    mappings: &[Mapping],
    tables: &[Table],
) -> bool
    requires fit { AreFit mappings.now }
    requires texts { HaveTexts tables.now }
    requires keys { All HasKeys tables.now }
    requires not_apart { unfolded.now.rows.apart ≡ [] }
    requires origins { HasOrigins mappings.now (source_query source.now) unfolded.now }
    ensures { IsTrue result → row_tuples tables.now (apart_query unfolded.now.rows) ≡ [] }
{
    let query = &unfolded.rows.query;
    if is_unsatisfiable(query, tables) {
        return true;
    }
    asks_two_fillers(source) && are_one_fact(mappings, query, tables, unfolded.origins.items())
}
