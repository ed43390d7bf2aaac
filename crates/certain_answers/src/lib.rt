//! The certain answers of queries over mapped tables.
//!
//! A [`Specification`] is made once of axioms and mappings, which it saturates. [`answers`] then gives the [`Answers`] of
//! a query over tables: it folds the query under the axioms, drops what the folds ask for anyway and the folds for which
//! others stand, and gives the images of what is left over the saturated mappings, in order, each once.
#![tactic(auto)]

mod answer_list;
mod answering;
mod leaning;
mod specification;

pub use answer_list::Answers;
pub use answering::answers;
pub use specification::Specification;
