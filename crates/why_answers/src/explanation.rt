//! Explanations.

use conflict_checker::Step;
use vocabulary::List;

/// Why a tuple is an answer of a query: steps that each have a fact, and for each atom of the query, in
/// its order, the number of the step with the atom's fact. All numbers count from 1.
#[derive(Debug, Drop)]
pub struct Why {
    pub steps: List<Step>,
    pub atoms: List<u32>,
}
