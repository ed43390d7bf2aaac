//! Row queries with their origins.
use crate::Origin;
use mapping_facts::RowQuery;
use vocabulary::List;

/// A row query that a choice of one target for each atom makes, with its choices in the order of
/// the atoms.
#[derive(Debug, Drop)]
pub struct Unfolded {
    pub rows: RowQuery,
    pub origins: List<Origin>,
}
