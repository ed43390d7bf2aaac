//! All tokens of a line.
ghost use Rattle.std.specs.Prelude.{◌≡◌, ℕ, IfOk, length, drop};
ghost use Rattle.line_lexer.specs.Shapes.{IsLongestFront};
ghost use Rattle.line_lexer.specs.Tokens.{AreSpans, ReadsTokens, TellsFirst, token_at, tokens_of};

use crate::fault::LineFault;
use crate::token::{LexFault, Token};
use crate::tokens::Tokens;
use std::alloc::Global;

/// The token that stands first in a line, if there is one. What stands behind it is not looked at: a line may have a first
/// token where [`tokens_of`] has Syntax.
pub fn first_token(line: &str) -> Result<Option<Token<'_>>, LexFault>
    ensures { TellsFirst result (tokens_of line.now) }
{
    let mut tokens = Tokens::new(line);
    match tokens.next() {
        None => Ok(None),
        Some(Ok(token)) => Ok(Some(token)),
        Some(Err(fault)) => Err(fault),
    }
}

/// The tokens of a line. Syntax exactly where no token begins at some place.
#[tactic(auto, using(crate::proofs::Longest::longest))]
pub fn tokens_of<'a>(alloc: Global, line: &'a str) -> Result<Vec<Token<'a>>, LineFault>
    ensures tokens { ReadsTokens result (tokens_of line.now) }
    // Wherever the line is read on, what is taken is the longest front that is a token, and nothing where no front is one.
    ensures longest { (place : ℕ) → IsLongestFront (drop place line.now) (token_at (drop place line.now)) }
    // Each token is the slice of the line at its span, and they stand in order.
    ensures spans { IfOk result (λ v. AreSpans line.now 0 v.items (length line.now)) }
{
    let mut found = Vec::new(alloc);
    let mut tokens = Tokens::new(line);
    while let Some(next) = tokens.next() {
        match next {
            Ok(token) => found.push(token)?,
            Err(_) => return Err(LineFault::Syntax),
        }
    }
    Ok(found)
}
