//! Ontologies in OWL 2 functional-style syntax, as far as DL-Lite can say what they say.
#![tactic(auto)]

mod axioms;
mod document;
mod entities;
mod fault;
mod forms;
mod giving;
mod lookup;
mod names;
mod numbered;
mod ontology;
mod piece;
mod place;
mod prefixes;
mod reader;
mod reading;
mod rules;
mod shape;
mod signs;
mod spot;
mod table;
mod taken;
mod tree;
mod verb;
mod words;

pub use fault::OwlFault;
pub use ontology::Ontology;
pub use reading::read_ontology;
