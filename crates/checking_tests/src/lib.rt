//! Tests of conflicts, derivations and their texts, derivations of known facts, of answers and queries as they are printed, and of the
//! made project.
#![tactic(auto)]

#[cfg(test)]
mod accepting;
#[cfg(test)]
mod derived;
#[cfg(test)]
mod finding;
#[cfg(test)]
mod made;
#[cfg(test)]
mod mapped;
#[cfg(test)]
mod printed;
#[cfg(test)]
mod searching;
#[cfg(test)]
mod small;
#[cfg(test)]
mod spelled;
#[cfg(test)]
mod within;
#[cfg(test)]
mod written;
