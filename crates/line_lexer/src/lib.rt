//! The lines of a text, the tokens of a line, and the pieces of which the grammars of lines are made.
//!
//! [`Lines`] cuts a text into lines, [`Tokens`] a line into tokens, and [`grammar`] has the pieces that the readers of
//! lines share. [`LineFault`] is every fault that a line can have, and [`Counted`] the table of limits: each number of
//! the language stands there once.
#![tactic(auto)]

mod collect;
mod fault;
pub mod grammar;
mod lines;
mod repeats;
mod runs;
mod shape;
mod token;
mod tokens;
mod values;

pub use collect::{first_token, tokens_of};
pub use fault::{Counted, LineFault};
pub use lines::{Line, Lines};
pub use repeats::has_twice;
pub use shape::Shape;
pub use token::{LexFault, Token};
pub use tokens::Tokens;
pub use values::{inner, number};
