//! Tests of ontologies in OWL 2 functional-style syntax: what they give, their faults, and their sizes.
#![tactic(auto)]

#[cfg(test)]
mod cases;
#[cfg(test)]
mod editors;
#[cfg(test)]
mod faults;
#[cfg(test)]
mod forms;
#[cfg(test)]
mod models;
#[cfg(test)]
mod sizes;
