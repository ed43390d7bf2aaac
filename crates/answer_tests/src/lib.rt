//! Tests of unfolding, joining, certain answers and their explanations over small tables.
#![tactic(auto)]

#[cfg(test)]
mod answers;
#[cfg(test)]
mod heading;
#[cfg(test)]
mod joining;
#[cfg(test)]
mod mapped;
#[cfg(test)]
mod ready;
#[cfg(test)]
mod small;
#[cfg(test)]
mod unfolding;
#[cfg(test)]
mod why;
