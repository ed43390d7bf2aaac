//! What an ontology gives.
use dllite_axioms::Tbox;
use vocabulary::{List, Name, Side};

/// The classes and links that a text declares, in its order, and what its axioms say of them.
#[derive(Debug, Drop)]
pub struct Ontology {
    pub classes: List<Name>,
    pub links: List<Name>,
    /// For each link the sort of its second place.
    pub sides: List<Side>,
    pub tbox: Tbox,
}
