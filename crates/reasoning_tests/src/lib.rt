//! Tests of names and terms, axioms, queries, rewriting, folds, subsumption, the negative closure and void elements.
#![tactic(auto)]

#[cfg(test)]
mod applying;
#[cfg(test)]
mod closure;
#[cfg(test)]
mod folding;
#[cfg(test)]
mod linting;
#[cfg(test)]
mod questions;
#[cfg(test)]
mod rewriting;
#[cfg(test)]
mod subsuming;
#[cfg(test)]
mod terms;
#[cfg(test)]
mod within;
#[cfg(test)]
mod written;
