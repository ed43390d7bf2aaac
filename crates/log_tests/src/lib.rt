//! Tests of logs, reports, derivations and the top call.
#![tactic(auto)]

#[cfg(test)]
mod assembling;
#[cfg(test)]
mod cases;
#[cfg(test)]
mod conference;
#[cfg(test)]
mod conflicts;
#[cfg(test)]
mod derivations;
#[cfg(test)]
mod failing;
#[cfg(test)]
mod folds;
#[cfg(test)]
mod limits;
#[cfg(test)]
mod logs;
#[cfg(test)]
mod made;
#[cfg(test)]
mod models;
#[cfg(test)]
mod ontologies;
#[cfg(test)]
mod running;
#[cfg(test)]
mod small;
#[cfg(test)]
mod streaming;
#[cfg(test)]
mod wide;
#[cfg(test)]
mod writing;
