//! What a model itself tells, with no data: classes and links of which no consistent data has a fact, and queries whose
//! answers are all answers of another.
//!
//! [`voids`] gives a [`VoidProof`] for each void element, and [`shows`] looks a proof up, whoever wrote it. [`contained`]
//! tells whether one query is contained in another under the axioms.
#![tactic(auto)]

mod containment;
mod element;
mod finding;
pub mod laws;
mod marking;
mod showing;

pub use containment::contained;
pub use element::{Void, VoidProof};
pub use finding::voids;
pub use showing::shows;
